// What stands at a place of a text.
ghost use Rattle.std.specs.Prelude.{ℕ, ◌≤◌};

// Why a cell is bad: a number from 1 to 255, and the place in the store or join that made it.
#[derive(Clone, Copy, Debug, PartialEq)]
pub struct Fault {
    pub number: u8,
    pub own: usize,
    ghost numbered: { 1 ≤ number },
}

// No function answers with a cell: it is the word of the clauses for one that is there. As a Result<u8, Fault> it
// would be no plainer, since the question for a cell answers with one that may also be none.
#[derive(Clone, Copy, Debug, PartialEq)]
pub enum Cell {
    Byte(u8),
    Bad(Fault),
}
