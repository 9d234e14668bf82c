// The same over a chain memory, from the chain's first index on, under a cover.
ghost use Rattle.std.specs.Prelude.{◌≡◌, map, length, MatchResult};
ghost use Rattle.texts.specs.Codes.{codes};
ghost use Rattle.texts.specs.Spaces.{in_front};
ghost use Rattle.layers.specs.Covers.{covered, shown_by};
ghost use Rattle.layers.specs.Marks.{marked};
ghost use Rattle.chain.specs.Chains.{chained};
ghost use Rattle.whole.specs.Whole.{Counts};
ghost use Rattle.words.specs.Copy.{overlaid, byte_shown};
ghost use Rattle.words.specs.Field.{FieldOf};
ghost use Rattle.words.specs.Fill.{FilledWords, RefusedWords};
ghost use Rattle.interface.specs.Reports.{Reported, BarredText};

use crate::any::{count, fill, offset};
use chain::store::ChainStore;
use layers::cover::Cover;
use words::copy::copy_text;
use words::field::field_of_text;

// The text of the chain, covered.
fn pile(memory: &[u8], first: u16) -> Cover<ChainStore<'_>>
    ensures { shown_by (marked result.comments.words) 0 (chained result.inner.memory.now result.inner.first) ≡ covered (chained memory.now first) }
{
    Cover::new(ChainStore::new(memory, first))
}

pub fn statement_chain_count(memory: &[u8], first: u16, outcome: &mut [u64]) -> u64
    ensures { Reported (λ a. MatchResult a (Counts (covered (chained memory.now first))) (BarredText (covered (chained memory.now first)))) result outcome.old outcome.new }
{
    count(&pile(memory, first), outcome)
}

pub fn statement_chain_fill(
    memory: &[u8],
    first: u16,
    queries: &mut [u64],
    separators: &mut [u64],
    outcome: &mut [u64],
) -> u64
    ensures { Reported (λ a. MatchResult a (FilledWords (covered (chained memory.now first)) queries.old queries.new separators.old separators.new) (RefusedWords (covered (chained memory.now first)) queries.old queries.new separators.old separators.new)) result outcome.old outcome.new }
{
    fill(&pile(memory, first), queries, separators, outcome)
}

pub fn statement_chain_field(memory: &[u8], first: u16, k: usize, field: usize) -> u64
    ensures { FieldOf (covered (chained memory.now first)) k field result }
{
    field_of_text(&pile(memory, first), k, field)
}

pub fn statement_chain_offset(memory: &[u8], first: u16) -> u64
    ensures { result ≡ in_front (codes (covered (chained memory.now first))) }
{
    offset(&pile(memory, first))
}

// The covered text itself, as many bytes as there is room for, with 26 for a bad cell. Answers how many cells it has.
pub fn statement_chain_text(memory: &[u8], first: u16, out: &mut [u8]) -> u64
    ensures long { result ≡ length (covered (chained memory.now first)) }
    ensures copied { out.new ≡ overlaid out.old (map byte_shown (covered (chained memory.now first))) }
{
    copy_text(&pile(memory, first), out) as u64
}
