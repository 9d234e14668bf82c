// The walk along a chain, once, and what is kept of it.
ghost use Rattle.std.specs.Prelude.{◌≡◌, ℕ, ◌<◌, length, Some, IfOk, slice_get};
ghost use Rattle.std.specs.Result.{result_err};
ghost use Rattle.chain.specs.Chains.{records_of, record_at, damage_at};
ghost use Rattle.chain.specs.Walks.{Walked, list_of, ending};

use crate::damage::{Damage, fault_of};
use crate::pieces::{Piece, Pieces};
use crate::record::{next_of, sound};
use texts::cell::Fault;

// Only whole records count, and at most 256.
fn records_of(memory: &[u8]) -> &[[u8; 64]]
    ensures count { length result.now ≡ records_of memory.now }
    ensures each { (k : ℕ) → k < length result.now → slice_get result.now k ≡ Some (record_at memory.now k) }
{
    let (records, _) = memory.as_chunks::<64>();
    &records[..records.len().min(256)]
}

// The record that is to be taken, where some are left to take.
fn record_at(memory: &[u8], left: usize, number: usize) -> Result<&[u8; 64], Damage>
    ensures damage { result_err result ≡ damage_at memory.now left number }
    ensures found { IfOk result (λ r. r.now ≡ record_at memory.now number) }
{
    if left == 0 {
        return Err(Damage::TooMany);
    }
    let record = records_of(memory).get(number).ok_or(Damage::NoRecord)?;
    sound(record)?;
    Ok(record)
}

// The pieces of a chain's text, how many bytes they have, and the fault that ends it.
#[derive(Clone, Copy)]
pub(crate) struct Walk {
    pub(crate) pieces: Pieces,
    pub(crate) size: usize,
    pub(crate) damage: Option<Fault>,
}

// Walks along the chain that begins at an index, up to its end or to damage.
pub(crate) fn walk_along(memory: &[u8], first: u16) -> Walk
    ensures { Walked memory.now first (list_of result.pieces) result.size (ending result.damage) }
{
    let records = records_of(memory).len();
    let mut pieces = Pieces::none();
    let mut size = 0;
    let mut index = first;
    while index != 0 {
        let number = usize::from(index) - 1;
        match record_at(memory, records - pieces.as_slice().len(), number) {
            Ok(record) => {
                let start = size;
                size += usize::from(record[2]);
                pieces.push(Piece {
                    start: start as u16,
                    end: size as u16,
                    from: (number * 64 + 4) as u16,
                });
                index = next_of(record);
            }
            Err(damage) => {
                let damage = Some(fault_of(damage, size));
                return Walk {
                    pieces,
                    size,
                    damage,
                };
            }
        }
    }
    Walk {
        pieces,
        size,
        damage: None,
    }
}
