// What the entry points do, for any text.
ghost use Rattle.std.specs.Prelude.{◌≡◌, MatchResult};
ghost use Rattle.texts.specs.Codes.{codes};
ghost use Rattle.texts.specs.Spaces.{in_front};
ghost use Rattle.whole.specs.Whole.{Counts};
ghost use Rattle.words.specs.Fill.{FilledWords, RefusedWords};
ghost use Rattle.interface.specs.Reports.{Reported, BarredText};

use texts::text::Text;
use texts::trim::Trim;
use whole::refusal::WholeRefusal;
use whole::whole::count_queries;
use words::fill::fill_text;
use words::put::report;

pub(crate) fn count<T: Text>(text: &T, outcome: &mut [u64]) -> u64
    ensures { Reported (λ a. MatchResult a (Counts (T.Text.cells text.now)) (BarredText (T.Text.cells text.now))) result outcome.old outcome.new }
{
    report(count_queries(text).map_err(WholeRefusal::from), outcome)
}

pub(crate) fn fill<T: Text>(
    text: &T,
    queries: &mut [u64],
    separators: &mut [u64],
    outcome: &mut [u64],
) -> u64
    ensures { Reported (λ a. MatchResult a (FilledWords (T.Text.cells text.now) queries.old queries.new separators.old separators.new) (RefusedWords (T.Text.cells text.now) queries.old queries.new separators.old separators.new)) result outcome.old outcome.new }
{
    report(fill_text(text, queries, separators), outcome)
}

// How many cells the trim drops in front: a place in the trimmed text is this much further on in the text.
pub(crate) fn offset<T: Text>(text: &T) -> u64
    ensures { result ≡ in_front (codes (T.Text.cells text.now)) }
{
    Trim::new(text).dropped_in_front() as u64
}
