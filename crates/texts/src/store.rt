// The byte store: the caller's bytes as cells.
ghost use Rattle.std.specs.Prelude.{◌≡◌, ℕ, ◌≤◌, List, length};
ghost use Rattle.texts.specs.declared.cell.Cell.{Cell};
ghost use Rattle.texts.specs.Cells.{answer, stored, stored_short};

use crate::cell::Fault;
use crate::text::{LONGEST, Text, overfull_cell};

#[derive(Clone, Copy)]
pub struct ByteStore<'a> {
    bytes: &'a [u8],
}

impl<'a> ByteStore<'a> {
    pub fn new(bytes: &'a [u8]) -> ByteStore<'a>
        ensures { result.bytes.now ≡ bytes.now }
    {
        ByteStore { bytes }
    }
}

impl Text for ByteStore<'_> {
    ghost cells = { λ s. stored s.bytes.now };

    ghost short = { λ s. stored_short s.bytes.now };

    fn len(&self) -> usize {
        if self.bytes.len() <= LONGEST {
            self.bytes.len()
        } else {
            1
        }
    }

    fn cell(&self, place: usize) -> Result<Option<u8>, Fault> {
        if self.bytes.len() > LONGEST {
            return overfull_cell(place);
        }
        Ok(self.bytes.get(place).copied())
    }
}
