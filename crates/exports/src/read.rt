// A whole statement, stepped through by one call.
ghost use Rattle.std.specs.Prelude.{◌≡◌};
ghost use Rattle.texts.specs.Cells.{stored};
ghost use Rattle.exports.specs.Keeps.{Keeps};
ghost use Rattle.exports.specs.Outcome.{ReadText};

use crate::layout::words_of;
use crate::outcome::outcome_of;
use crate::put::put_slot;
use grammar::query::SingleQuery;
use texts::store::ByteStore;
use texts::text::Text;
use whole::walk::{Sink, walk_text};

// Words that take queries as records of 24, while there is room for whole ones.
#[derive(Drop)]
pub(crate) struct Records<'a> {
    words: &'a mut [u64],
}

impl Sink for Records<'_> {
    ghost takes = { Keeps };

    fn take(&mut self, n: usize, _: usize, query: SingleQuery) {
        put_slot(self.words, n, &words_of(query));
    }
}

// The queries of any text.
pub fn read_text<T: Text>(text: &T, records: &mut [u64], outcome: &mut [u64]) -> usize
    ensures { ReadText (T.Text.cells text.now) result records.old records.new outcome.old outcome.new }
{
    let mut records = Records { words: records };
    let walk = walk_text(text, &mut records);
    put_slot(outcome, 0, &walk.refusal.map_or([0; 4], outcome_of));
    walk.given
}

// The queries of a statement in the caller's bytes: a record of 24 words for each that there is room for, and
// four words that tell how it ended. Answers how many queries were given.
pub fn statement_read(bytes: &[u8], records: &mut [u64], outcome: &mut [u64]) -> u64
    ensures { ReadText (stored bytes.now) result records.old records.new outcome.old outcome.new }
{
    read_text(&ByteStore::new(bytes), records, outcome) as u64
}
