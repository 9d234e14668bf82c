// The same over a chain memory, from the chain's first index on, under a cover.
ghost use Rattle.std.specs.Prelude.{◌≡◌, map, length, MatchResult};
ghost use Rattle.texts.specs.Codes.{codes};
ghost use Rattle.texts.specs.Spaces.{in_front};
ghost use Rattle.layers.specs.Covers.{covered};
ghost use Rattle.chain.specs.Chains.{chained};
ghost use Rattle.whole.specs.Whole.{Counts};
ghost use Rattle.words.specs.Copy.{overlaid, byte_shown};
ghost use Rattle.words.specs.Field.{FieldOf};
ghost use Rattle.words.specs.Fill.{FilledWords, RefusedWords};
ghost use Rattle.interface.specs.Reports.{Reported, BarredText};

#[unsafe(no_mangle)]
pub extern "C" fn statement_chain_count(memory: &[u8], first: u16, outcome: &mut [u64]) -> u64
    ensures { Reported (λ a. MatchResult a (Counts (covered (chained memory.now first))) (BarredText (covered (chained memory.now first)))) result outcome.old outcome.new }
{
    interface::memory::statement_chain_count(memory, first, outcome)
}

#[unsafe(no_mangle)]
pub extern "C" fn statement_chain_fill(
    memory: &[u8],
    first: u16,
    queries: &mut [u64],
    separators: &mut [u64],
    outcome: &mut [u64],
) -> u64
    ensures { Reported (λ a. MatchResult a (FilledWords (covered (chained memory.now first)) queries.old queries.new separators.old separators.new) (RefusedWords (covered (chained memory.now first)) queries.old queries.new separators.old separators.new)) result outcome.old outcome.new }
{
    interface::memory::statement_chain_fill(memory, first, queries, separators, outcome)
}

#[unsafe(no_mangle)]
pub extern "C" fn statement_chain_field(memory: &[u8], first: u16, k: usize, field: usize) -> u64
    ensures { FieldOf (covered (chained memory.now first)) k field result }
{
    interface::memory::statement_chain_field(memory, first, k, field)
}

#[unsafe(no_mangle)]
pub extern "C" fn statement_chain_offset(memory: &[u8], first: u16) -> u64
    ensures { result ≡ in_front (codes (covered (chained memory.now first))) }
{
    interface::memory::statement_chain_offset(memory, first)
}

// The covered text itself, as many bytes as there is room for, with 26 for a bad cell. Answers how many cells it has.
#[unsafe(no_mangle)]
pub extern "C" fn statement_chain_text(memory: &[u8], first: u16, out: &mut [u8]) -> u64
    ensures long { result ≡ length (covered (chained memory.now first)) }
    ensures copied { out.new ≡ overlaid out.old (map byte_shown (covered (chained memory.now first))) }
{
    interface::memory::statement_chain_text(memory, first, out)
}
