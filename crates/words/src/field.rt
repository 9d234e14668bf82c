// One number of one query's record.
ghost use Rattle.std.specs.Prelude.{◌≡◌};
ghost use Rattle.words.specs.Field.{found_in, FieldOf};

use exports::layout::words_of;
use grammar::query::SingleQuery;
use texts::text::Text;
use whole::nth::nth_query;

// What tells C that a word is not there; no record has it.
const ABSENT: u64 = u64::MAX;

fn field_in(found: Option<SingleQuery>, field: usize) -> u64
    ensures { result ≡ found_in found field }
{
    found
        .and_then(|query| words_of(query).get(field).copied())
        .unwrap_or(ABSENT)
}

// A word of query k, as stepping from the start comes to it; 2^64 - 1 where there is no such query or word.
pub fn field_of_text<T: Text>(text: &T, k: usize, field: usize) -> u64
    ensures { FieldOf (T.Text.cells text.now) k field result }
{
    field_in(nth_query(text, k).ok().flatten(), field)
}
