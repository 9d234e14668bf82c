// Why a reading in slots, or a part of bytes, is refused.
ghost use Rattle.std.specs.Prelude.{◌≡◌};
ghost use Rattle.whole.specs.declared.refusal.WholeRefusal.TheVariants.{OfText};

use reader::refusal::Refusal;

#[derive(Clone, Copy, Debug, PartialEq)]
pub enum WholeRefusal {
    // The text has no reading.
    OfText { refusal: Refusal },
    // A reading of so many queries does not fit into the slots.
    TooFewSlots { queries: usize },
    // A part starts behind its end, or ends behind the bytes.
    OutsideBytes,
}

impl From<Refusal> for WholeRefusal {
    ghost from_gives = { λ refusal r. r ≡ OfText refusal };

    fn from(refusal: Refusal) -> WholeRefusal {
        WholeRefusal::OfText { refusal }
    }
}
