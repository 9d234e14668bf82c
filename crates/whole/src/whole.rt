// The whole reading of a text, in the caller's slots: counted first, and filled in only where it fits.
ghost use Rattle.std.specs.Prelude.{◌≡◌, ℕ, MatchResult};
ghost use Rattle.reader.specs.Standing.{Within};
ghost use Rattle.whole.specs.Walks.{Counted};
ghost use Rattle.whole.specs.Whole.{Counts, Barred, enough, Fits, Why, Filled, Refused};

use crate::reading::Reading;
use crate::refusal::WholeRefusal;
use crate::walk::{Sink, walk_text, walk_through};
use grammar::query::SingleQuery;
use reader::reader::Reader;
use reader::refusal::Refusal;
use texts::text::Text;

// Takes queries and keeps none: a walk that only counts.
#[derive(Clone, Copy)]
struct Nothing;

impl Sink for Nothing {
    ghost takes = { λ _ _ _ _ _. Unit {0} };

    fn take(&mut self, _: usize, _: usize, _: SingleQuery) {}
}

// How many queries stepping through a text gives. The reader then stands at the start.
pub fn count<T: Text>(reader: &mut Reader<T>) -> Result<usize, Refusal>
    ensures text { reader.new.text ≡ reader.old.text }
    ensures same { reader.new.codes ≡ reader.old.codes }
    ensures none { reader.new.k ≡ 0 }
    ensures start { reader.new.place ≡ 0 }
    ensures before { Within reader.old.k reader.old.place }
    ensures counted { Counted reader.old.codes result }
{
    walk_through(reader, &mut Nothing).answer()
}

// How many queries the reading of a text has.
pub fn count_queries<T: Text>(text: &T) -> Result<usize, Refusal>
    ensures { MatchResult result (Counts (T.Text.cells text.now)) (Barred (T.Text.cells text.now)) }
{
    walk_text(text, &mut Nothing).answer()
}

// Whether n queries and the separators between them fit into so many slots.
pub fn has_room(n: usize, slots: usize, between: usize) -> bool
    ensures { result ≡ enough slots between n }
{
    n <= slots && n.saturating_sub(1) <= between
}

// A reader at the start of a text whose reading fits into so many slots, and how many queries the reading has.
pub fn fitting<'a, T: Text>(
    text: &'a T,
    slots: usize,
    between: usize,
) -> Result<(Reader<'a, T>, usize), WholeRefusal>
    ensures { MatchResult result (λ x. Fits (T.Text.cells text.now) slots between x.0 x.1) (Why (T.Text.cells text.now) slots between) }
{
    let mut reader = Reader::start(text)?;
    let n = count(&mut reader)?;
    if has_room(n, slots, between) {
        Ok((reader, n))
    } else {
        Err(WholeRefusal::TooFewSlots { queries: n })
    }
}

// Fills the first n query slots and n - 1 separator slots with the reading of a text, and no others; answers n.
// A refusal leaves every slot and both lists as they were.
pub fn read_whole<T: Text>(text: &T, reading: &mut Reading) -> Result<usize, WholeRefusal>
    ensures queries { reading.new.queries.slots.ghost_name ≡ reading.old.queries.slots.ghost_name }
    ensures separators { reading.new.separators.slots.ghost_name ≡ reading.old.separators.slots.ghost_name }
    ensures whole { MatchResult result (Filled (T.Text.cells text.now) reading.old reading.new) (Refused (T.Text.cells text.now) reading.old reading.new) }
{
    let (mut reader, n) = fitting(text, reading.queries.room(), reading.separators.room())?;
    reading.queries.clear();
    reading.separators.clear();
    walk_through(&mut reader, reading);
    Ok(n)
}
