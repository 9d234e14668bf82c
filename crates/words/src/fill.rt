// The whole reading of a text, as numbers: counted first, and written only where it fits.
ghost use Rattle.std.specs.Result.{MatchResult};
ghost use Rattle.words.specs.Fill.{FilledWords, RefusedWords};

use crate::steps::Slices;
use texts::text::Text;
use whole::refusal::WholeRefusal;
use whole::walk::walk_through;
use whole::whole::fitting;

// C lends two slices. Writes the n queries and n - 1 separators of the reading, and no other word; answers n.
// A refusal leaves every word as it was.
pub fn fill_text<T: Text>(
    text: &T,
    queries: &mut [u64],
    separators: &mut [u64],
) -> Result<usize, WholeRefusal>
    ensures { MatchResult result (FilledWords (T.Text.cells text.now) queries.old queries.new separators.old separators.new) (RefusedWords (T.Text.cells text.now) queries.old queries.new separators.old separators.new) }
{
    let (mut reader, n) = fitting(text, queries.len() / 24, separators.len() / 2)?;
    let mut slices = Slices {
        queries,
        separators,
    };
    walk_through(&mut reader, &mut slices);
    Ok(n)
}
