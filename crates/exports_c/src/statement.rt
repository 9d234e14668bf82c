// Entry points over a statement in the caller's bytes.
ghost use Rattle.std.specs.Prelude.{◌≡◌, MatchResult};
ghost use Rattle.texts.specs.Cells.{stored};
ghost use Rattle.texts.specs.Codes.{codes};
ghost use Rattle.texts.specs.Spaces.{in_front};
ghost use Rattle.whole.specs.Whole.{Counts};
ghost use Rattle.words.specs.Copy.{Copied, Uncopied};
ghost use Rattle.words.specs.Field.{FieldOf};
ghost use Rattle.words.specs.Fill.{FilledWords, RefusedWords};
ghost use Rattle.words.specs.Steps.{ReadText as StepsText};
ghost use Rattle.exports.specs.Outcome.{ReadText};
ghost use Rattle.interface.specs.Reports.{Reported, BarredText};

// The queries of a statement in the caller's bytes: a record of 24 words for each that there is room for, and
// four words that tell how it ended. Answers how many queries were given.
#[unsafe(no_mangle)]
pub extern "C" fn statement_read(bytes: &[u8], records: &mut [u64], outcome: &mut [u64]) -> u64
    ensures { ReadText (stored bytes.now) result records.old records.new outcome.old outcome.new }
{
    exports::read::statement_read(bytes, records, outcome)
}

// How many queries the reading has; 0 at a refusal, which the outcome's words tell.
#[unsafe(no_mangle)]
pub extern "C" fn statement_count(bytes: &[u8], outcome: &mut [u64]) -> u64
    ensures { Reported (λ a. MatchResult a (Counts (stored bytes.now)) (BarredText (stored bytes.now))) result outcome.old outcome.new }
{
    interface::statement::statement_count(bytes, outcome)
}

// The whole reading, or a refusal that leaves every word of both slices as it was. Answers how many queries it has.
#[unsafe(no_mangle)]
pub extern "C" fn statement_fill(
    bytes: &[u8],
    queries: &mut [u64],
    separators: &mut [u64],
    outcome: &mut [u64],
) -> u64
    ensures { Reported (λ a. MatchResult a (FilledWords (stored bytes.now) queries.old queries.new separators.old separators.new) (RefusedWords (stored bytes.now) queries.old queries.new separators.old separators.new)) result outcome.old outcome.new }
{
    interface::statement::statement_fill(bytes, queries, separators, outcome)
}

// Every query that stepping gives, also before a refusal, as far as there is room. Answers how many were given.
#[unsafe(no_mangle)]
pub extern "C" fn statement_steps(
    bytes: &[u8],
    queries: &mut [u64],
    separators: &mut [u64],
    outcome: &mut [u64],
) -> u64
    ensures { StepsText (stored bytes.now) result queries.old queries.new separators.old separators.new outcome.old outcome.new }
{
    interface::statement::statement_steps(bytes, queries, separators, outcome)
}

// One word of query k; 2^64 - 1 where there is no such query or word.
#[unsafe(no_mangle)]
pub extern "C" fn statement_field(bytes: &[u8], k: usize, field: usize) -> u64
    ensures { FieldOf (stored bytes.now) k field result }
{
    interface::statement::statement_field(bytes, k, field)
}

// The bytes from a place up to another, as many as there is room for. Answers how many they are; 0 at a refusal.
#[unsafe(no_mangle)]
pub extern "C" fn statement_part(
    bytes: &[u8],
    start: usize,
    end: usize,
    out: &mut [u8],
    outcome: &mut [u64],
) -> u64
    ensures { Reported (λ a. MatchResult a (Copied bytes.now start end out.old out.new) (Uncopied bytes.now start end out.old out.new)) result outcome.old outcome.new }
{
    interface::statement::statement_part(bytes, start, end, out, outcome)
}

// How many bytes the trim drops in front.
#[unsafe(no_mangle)]
pub extern "C" fn statement_offset(bytes: &[u8]) -> u64
    ensures { result ≡ in_front (codes (stored bytes.now)) }
{
    interface::statement::statement_offset(bytes)
}
