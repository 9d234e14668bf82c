// The text interface. Its meaning is a list of cells, and both questions are answered from that list:
// whoever adds a store or a layer owes just these clauses.
ghost use Rattle.std.specs.Prelude.{◌≡◌, ℕ, ◌≤◌, List, length};
ghost use Rattle.texts.specs.declared.cell.Cell.{Cell};
ghost use Rattle.texts.specs.Cells.{answer, overfull};

use crate::cell::Fault;

// The most cells that a text may have.
pub const LONGEST: usize = 16384;

pub trait Text {
    ghost cells: { Self → List Cell };

    ghost short: { (x : Self) → length (cells x) ≤ 16384 };

    fn len(&self) -> usize
        ensures { result ≡ length (cells self.now) };

    // A byte, no cell at or past the length, or the fault of a bad cell.
    fn cell(&self, place: usize) -> Result<Option<u8>, Fault>
        ensures { result ≡ answer (cells self.now) place };
}

// A reference to a text is that text.
impl<T: Text> Text for &T {
    ghost cells = { λ s. T.Text.cells s.now };

    ghost short = { λ s. T.Text.short s.now };

    fn len(&self) -> usize {
        (**self).len()
    }

    fn cell(&self, place: usize) -> Result<Option<u8>, Fault> {
        (**self).cell(place)
    }
}

// What the one bad cell of a text that does not fit answers.
pub fn overfull_cell(place: usize) -> Result<Option<u8>, Fault>
    ensures { result ≡ answer overfull place }
{
    if place == 0 {
        Err(Fault { number: 5, own: 0 })
    } else {
        Ok(None)
    }
}
