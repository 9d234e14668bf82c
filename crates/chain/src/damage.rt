// What can be wrong with a chain, and the fault that tells it.
ghost use Rattle.std.specs.Prelude.{◌≡◌};
ghost use Rattle.chain.specs.Damages.{fault_of};

use texts::cell::Fault;

// Each with its number in a fault.
#[derive(Clone, Copy)]
pub(crate) enum Damage {
    // the index is past the last record
    NoRecord = 1,
    // as many records were taken as the memory has
    TooMany = 2,
    // the used length is over 60
    TooLong = 3,
    // the check disagrees
    WrongCheck = 4,
}

// Its fault, where `own` cells stand before it.
pub(crate) fn fault_of(damage: Damage, own: usize) -> Fault
    ensures { result ≡ fault_of damage own }
{
    let number = damage as u8;
    Fault { number, own }
}
