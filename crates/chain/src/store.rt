// The chain store: a memory's chain as a text.
ghost use Rattle.std.specs.Prelude.{◌≡◌, ℕ, ◌≤◌, List, ◌++◌, length, slice_get};
ghost use Rattle.std.specs.Option.{MatchOption};
ghost use Rattle.texts.specs.declared.cell.Cell.{Cell};
ghost use Rattle.texts.specs.Cells.{answer, bytes};
ghost use Rattle.chain.specs.Chains.{records_of, chained, Chain};
ghost use Rattle.chain.specs.Short.{chained_short};
ghost use Rattle.chain.specs.Walks.{list_of, Placed, Placed-prop, Holds, gathered, ending};

use crate::pieces::Piece;
use crate::walk::{Walk, walk_along};
use texts::cell::Fault;
use texts::text::Text;

#[derive(Clone, Copy)]
pub struct ChainStore<'a> {
    memory: &'a [u8],
    first: u16,
    walk: Walk,
    ghost within: { walk.size ≤ 15360 },
    ghost counted: { length (list_of walk.pieces) ≤ records_of memory.now },
    ghost placed: { Placed memory.now 0 walk.size (list_of walk.pieces) } by { Placed-prop memory.now 0 walk.size (list_of walk.pieces) },
    ghost whole: { ∥ chained memory.now first ≡ bytes (gathered memory.now (list_of walk.pieces)) ++ ending walk.damage ∥₁ },
}

impl Text for ChainStore<'_> {
    ghost cells = { λ s. chained s.memory.now s.first };

    ghost short = { λ s. chained_short s.memory.now s.first };

    fn len(&self) -> usize {
        self.walk.size + usize::from(self.walk.damage.is_some())
    }

    fn cell(&self, place: usize) -> Result<Option<u8>, Fault> {
        if place == self.walk.size {
            self.walk.damage.map_or(Ok(None), Err)
        } else {
            Ok(self.byte_at(place))
        }
    }
}

impl<'a> ChainStore<'a> {
    // Walks along the chain once.
    pub fn new(memory: &'a [u8], first: u16) -> ChainStore<'a>
        ensures memory { result.memory.now ≡ memory.now }
        ensures first { result.first ≡ first }
        ensures chain { Chain (chained result.memory.now result.first) }
    {
        let walk = walk_along(memory, first);
        ChainStore {
            memory,
            first,
            walk,
        }
    }

    // The piece that holds a place, if one does, by halving. A loop, which the library's `partition_point` would do too,
    // but in half as much time again.
    fn piece_at(&self, place: usize) -> Option<Piece>
        ensures { MatchOption result (self.now.walk.size ≤ place) (λ piece. Holds self.now.memory.now (gathered self.now.memory.now (list_of self.now.walk.pieces)) place piece) }
    {
        let pieces = self.walk.pieces.as_slice();
        let mut low = 0;
        let mut high = pieces.len();
        while low < high {
            let middle = (low + high) / 2;
            if usize::from(pieces[middle].end) <= place {
                low = middle + 1;
            } else {
                high = middle;
            }
        }
        pieces.get(low).copied()
    }

    fn byte_at(&self, place: usize) -> Option<u8>
        ensures { result ≡ slice_get (gathered self.now.memory.now (list_of self.now.walk.pieces)) place }
    {
        let piece = self.piece_at(place)?;
        let offset = place - usize::from(piece.start);
        Some(self.memory[usize::from(piece.from) + offset])
    }
}
