// A refusal as four numbers, as C reads it.
ghost use Rattle.std.specs.Prelude.{◌≡◌};
ghost use Rattle.exports.specs.Outcome.{outcome_of};

use reader::refusal::Refusal;

// A refusal's number, place, fault and own place; what it has not is 0.
pub fn outcome_of(refusal: Refusal) -> [u64; 4]
    ensures { result ≡ outcome_of refusal }
{
    let (fault, own) = match refusal {
        Refusal::BadCell { place: _, fault } => (u64::from(fault.number), fault.own as u64),
        _ => (0, 0),
    };
    [
        u64::from(refusal.number()),
        refusal.place() as u64,
        fault,
        own,
    ]
}
