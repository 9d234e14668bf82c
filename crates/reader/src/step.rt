// The query behind those that were given.
ghost use Rattle.std.specs.Prelude.{◌≡◌};
ghost use Rattle.texts.specs.Codes.{codes};
ghost use Rattle.reader.specs.Steps.{query_at, query_k, place_of};

use grammar::query::SingleQuery;
use parser::query::{parse_composition_operator, parse_single_query_atom};
use scanner::cursor::Cursor;
use texts::text::Text;

// The query at a place, or the place where it is missed.
fn query_at<T: Text>(text: &T, is_and: bool, start: usize) -> Result<SingleQuery, usize>
    ensures { result ≡ query_at (codes (T.Text.cells text.now)) is_and start }
{
    let mut cursor = Cursor::at(text, start);
    match parse_single_query_atom(&mut cursor) {
        Some((negated, atom)) => Ok(SingleQuery {
            raw: cursor.span_from(start),
            atom,
            negated,
            is_and,
        }),
        None => Err(cursor.place()),
    }
}

// A query behind its separator.
fn later_query<T: Text>(text: &T, end: usize) -> Result<SingleQuery, usize>
    ensures { result ≡ query_k (codes (T.Text.cells text.now)) 1 end }
{
    let mut cursor = Cursor::at(text, end);
    match parse_composition_operator(&mut cursor) {
        Some(is_and) => query_at(text, is_and, cursor.place()),
        None => Err(cursor.place()),
    }
}

// Query k, where the raw before it ends at a place, or the place where it or its separator is missed.
// It takes k and the place, and no reader: `place_of` asks it where no reader stands.
pub fn next_query<T: Text>(text: &T, k: usize, place: usize) -> Result<SingleQuery, usize>
    ensures { result ≡ query_k (codes (T.Text.cells text.now)) k place }
{
    if k == 0 {
        query_at(text, false, place).map_err(|_| 0)
    } else {
        later_query(text, place)
    }
}

// The end of raw k - 1, or 0, found from the start; where a query is missing it stays at the one before.
// A `for`, since over a `fold` the proof speaks of the closure's calls.
#[tactic(auto, using(crate::proofs::Places::place_more))]
pub fn place_of<T: Text>(text: &T, k: usize) -> usize
    ensures { result ≡ place_of (codes (T.Text.cells text.now)) k }
{
    let mut place = 0;
    for i in 0..k {
        place = next_query(text, i, place).map_or(place, |query| query.raw.end);
    }
    place
}
