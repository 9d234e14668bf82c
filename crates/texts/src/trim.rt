// The trim: a text without the white space in front and behind.
ghost use Rattle.std.specs.Prelude.{◌≡◌, ℕ, ◌-◌, ◌≤◌, List, length};
ghost use Rattle.texts.specs.declared.cell.Cell.{Cell};
ghost use Rattle.texts.specs.Cells.{answer};
ghost use Rattle.texts.specs.Codes.{codes};
ghost use Rattle.texts.specs.Spaces.{in_front, behind};
ghost use Rattle.texts.specs.Trim.{between, between_short, trimmed, Clean};

use crate::cell::Fault;
use crate::space::{space_behind, space_in_front};
use crate::text::Text;

// How many cells a text has before the white space behind.
fn kept_before<T: Text>(text: &T) -> usize
    ensures { result ≡ length (T.Text.cells text.now) - behind (codes (T.Text.cells text.now)) }
{
    text.len().saturating_sub(space_behind(text))
}

// The cells from `start` up to `end` of the text below.
#[derive(Drop)]
pub struct Trim<T> {
    inner: T,
    start: usize,
    end: usize,
}

impl<T: Text> Text for Trim<T> {
    ghost cells = { λ s. between s.start s.end (T.Text.cells s.inner) };

    ghost short = { λ s. between_short s.start s.end (T.Text.cells s.inner) (T.Text.short s.inner) };

    fn len(&self) -> usize {
        self.end.min(self.inner.len()).saturating_sub(self.start)
    }

    fn cell(&self, place: usize) -> Result<Option<u8>, Fault> {
        if place < self.end.saturating_sub(self.start) {
            self.inner.cell(self.start + place)
        } else {
            Ok(None)
        }
    }
}

impl<T: Text> Trim<T> {
    // Looks at the text once, in front and then behind.
    pub fn new(inner: T) -> Trim<T>
        ensures below { result.inner ≡ inner }
        ensures front { result.start ≡ in_front (codes (T.Text.cells inner)) }
        ensures meaning { between result.start result.end (T.Text.cells inner) ≡ trimmed (T.Text.cells inner) }
        ensures clean { Clean (between result.start result.end (T.Text.cells inner)) }
    {
        let end = inner.len();
        let start = space_in_front(&inner);
        let mut cut = Trim { inner, start, end };
        let kept = kept_before(&cut);
        cut.end = start + kept;
        cut
    }
}

impl<T> Trim<T> {
    // How many cells in front were dropped: a place in the trim is this much further on below.
    pub fn dropped_in_front(&self) -> usize
        ensures { result ≡ self.now.start }
    {
        self.start
    }
}
