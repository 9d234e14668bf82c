// A refusal as five numbers, as C reads it.
ghost use Rattle.std.specs.Prelude.{◌≡◌};
ghost use Rattle.records.specs.Refusals.{told_whole};

use exports::outcome::outcome_of;
use whole::refusal::WholeRefusal;

// Its number, its place, a bad cell's fault and own place, and how many queries want slots.
pub fn refusal_words(refusal: WholeRefusal) -> [u64; 5]
    ensures { result ≡ told_whole refusal }
{
    match refusal {
        WholeRefusal::OfText { refusal } => {
            let [number, place, fault, own] = outcome_of(refusal);
            [number, place, fault, own, 0]
        }
        WholeRefusal::TooFewSlots { queries } => [4, 0, 0, 0, queries as u64],
        WholeRefusal::OutsideBytes => [6, 0, 0, 0, 0],
    }
}
