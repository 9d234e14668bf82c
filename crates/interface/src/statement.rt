// Entry points over a statement in the caller's bytes.
ghost use Rattle.std.specs.Prelude.{◌≡◌, MatchResult};
ghost use Rattle.texts.specs.Cells.{stored};
ghost use Rattle.texts.specs.Codes.{codes};
ghost use Rattle.texts.specs.Spaces.{in_front};
ghost use Rattle.whole.specs.Whole.{Counts};
ghost use Rattle.words.specs.Copy.{Copied, Uncopied};
ghost use Rattle.words.specs.Field.{FieldOf};
ghost use Rattle.words.specs.Fill.{FilledWords, RefusedWords};
ghost use Rattle.words.specs.Steps.{ReadText};
ghost use Rattle.interface.specs.Reports.{Reported, BarredText};

use crate::any::{count, fill, offset};
use texts::store::ByteStore;
use words::copy::copy_part;
use words::field::field_of_text;
use words::put::report;
use words::steps::read_text;

// How many queries the reading has; 0 at a refusal, which the outcome's words tell.
pub fn statement_count(bytes: &[u8], outcome: &mut [u64]) -> u64
    ensures { Reported (λ a. MatchResult a (Counts (stored bytes.now)) (BarredText (stored bytes.now))) result outcome.old outcome.new }
{
    count(&ByteStore::new(bytes), outcome)
}

// The whole reading, or a refusal that leaves every word of both slices as it was. Answers how many queries it has.
pub fn statement_fill(
    bytes: &[u8],
    queries: &mut [u64],
    separators: &mut [u64],
    outcome: &mut [u64],
) -> u64
    ensures { Reported (λ a. MatchResult a (FilledWords (stored bytes.now) queries.old queries.new separators.old separators.new) (RefusedWords (stored bytes.now) queries.old queries.new separators.old separators.new)) result outcome.old outcome.new }
{
    fill(&ByteStore::new(bytes), queries, separators, outcome)
}

// Every query that stepping gives, also before a refusal, as far as there is room. Answers how many were given.
pub fn statement_steps(
    bytes: &[u8],
    queries: &mut [u64],
    separators: &mut [u64],
    outcome: &mut [u64],
) -> u64
    ensures { ReadText (stored bytes.now) result queries.old queries.new separators.old separators.new outcome.old outcome.new }
{
    read_text(&ByteStore::new(bytes), queries, separators, outcome) as u64
}

// One word of query k; 2^64 - 1 where there is no such query or word.
pub fn statement_field(bytes: &[u8], k: usize, field: usize) -> u64
    ensures { FieldOf (stored bytes.now) k field result }
{
    field_of_text(&ByteStore::new(bytes), k, field)
}

// The bytes from a place up to another, as many as there is room for. Answers how many they are; 0 at a refusal.
pub fn statement_part(
    bytes: &[u8],
    start: usize,
    end: usize,
    out: &mut [u8],
    outcome: &mut [u64],
) -> u64
    ensures { Reported (λ a. MatchResult a (Copied bytes.now start end out.old out.new) (Uncopied bytes.now start end out.old out.new)) result outcome.old outcome.new }
{
    report(copy_part(bytes, start, end, out), outcome)
}

// How many bytes the trim drops in front.
pub fn statement_offset(bytes: &[u8]) -> u64
    ensures { result ≡ in_front (codes (stored bytes.now)) }
{
    offset(&ByteStore::new(bytes))
}
