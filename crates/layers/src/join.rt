// The join: two texts with a comma between them.
ghost use Rattle.std.specs.Prelude.{◌≡◌, ℕ, ◌+◌, ◌<◌, ◌≤◌, List, length};
ghost use Rattle.texts.specs.declared.cell.Cell.{Cell};
ghost use Rattle.texts.specs.Cells.{answer};
ghost use Rattle.layers.specs.Joins.{joined, joined_short, Joining};

use texts::cell::Fault;
use texts::text::{LONGEST, Text, overfull_cell};

// The other text where one is empty.
#[derive(Drop)]
pub struct Join<X, Y> {
    first: X,
    second: Y,
}

impl<X: Text, Y: Text> Text for Join<X, Y> {
    ghost cells = { λ s. joined (X.Text.cells s.first) (Y.Text.cells s.second) };

    ghost short = { λ s. joined_short (X.Text.cells s.first) (Y.Text.cells s.second) (X.Text.short s.first) (Y.Text.short s.second) };

    fn len(&self) -> usize {
        let m = self.first.len();
        let n = self.second.len();
        if m == 0 {
            n
        } else if n == 0 {
            m
        } else if m + 1 + n <= LONGEST {
            m + 1 + n
        } else {
            1
        }
    }

    fn cell(&self, place: usize) -> Result<Option<u8>, Fault> {
        let m = self.first.len();
        let n = self.second.len();
        if m == 0 {
            return self.second.cell(place);
        }
        if n == 0 {
            return self.first.cell(place);
        }
        if m + 1 + n > LONGEST {
            return overfull_cell(place);
        }
        if place < m {
            self.first.cell(place)
        } else if place == m {
            Ok(Some(b','))
        } else {
            self.second.cell(place - m - 1)
        }
    }
}

impl<X: Text, Y: Text> Join<X, Y> {
    pub fn new(first: X, second: Y) -> Join<X, Y>
        ensures first { result.first ≡ first }
        ensures second { result.second ≡ second }
        ensures meaning { Joining (X.Text.cells first) (Y.Text.cells second) (joined (X.Text.cells result.first) (Y.Text.cells result.second)) }
    {
        Join { first, second }
    }
}
