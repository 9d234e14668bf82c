// Why a text has no reading, and where.
ghost use Rattle.std.specs.Prelude.{◌≡◌, ℕ, slice_index};
ghost use Rattle.reader.specs.Refusals.{told};

use texts::cell::Fault;

#[derive(Clone, Copy, Debug, PartialEq)]
pub enum Refusal {
    BadCell { place: usize, fault: Fault },
    IllFormed { place: usize },
    NoReading { place: usize },
    // There is no query to step back over.
    AtStart,
}

impl Refusal {
    // The documented numbers: C and the programs tell them.
    pub fn number(&self) -> u8
        ensures { result ≡ slice_index (told self.now) 0 }
    {
        match *self {
            Refusal::BadCell { .. } => 1,
            Refusal::IllFormed { .. } => 2,
            Refusal::NoReading { .. } => 3,
            Refusal::AtStart => 5,
        }
    }

    pub fn place(&self) -> usize
        ensures { result ≡ slice_index (told self.now) 1 }
    {
        match *self {
            Refusal::BadCell { place, .. }
            | Refusal::IllFormed { place }
            | Refusal::NoReading { place } => place,
            Refusal::AtStart => 0,
        }
    }
}
