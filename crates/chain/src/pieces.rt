// The pieces of a chain's text, in its order.
ghost use Rattle.std.specs.Prelude.{◌≡◌, ◌<◌, ◌≤◌, [], ◌∷◌, ◌++◌, length, take};

// The places of a piece, and where its first byte stands in the memory.
#[derive(Clone, Copy)]
pub(crate) struct Piece {
    pub(crate) start: u16,
    pub(crate) end: u16,
    pub(crate) from: u16,
}

// A list in fixed memory. The kit's `ArrayVec` would do the same, but is not copied as a chain store is.
#[derive(Clone, Copy)]
pub(crate) struct Pieces {
    slots: [Piece; 256],
    taken: usize,
    ghost within: { taken ≤ 256 },
}

impl Pieces {
    pub(crate) fn none() -> Pieces
        ensures { take result.taken result.slots ≡ [] }
    {
        let blank = Piece {
            start: 0,
            end: 0,
            from: 0,
        };
        Pieces {
            slots: [blank; 256],
            taken: 0,
        }
    }

    pub(crate) fn as_slice(&self) -> &[Piece]
        ensures { result.now ≡ take self.now.taken self.now.slots }
    {
        &self.slots[..self.taken]
    }

    pub(crate) fn push(&mut self, piece: Piece)
        requires { length (take self.old.taken self.old.slots) < 256 }
        ensures { take self.new.taken self.new.slots ≡ take self.old.taken self.old.slots ++ piece ∷ [] }
    {
        self.slots[self.taken] = piece;
        self.taken += 1;
    }
}
