// One record of 64 bytes: the next index, the used length, the check, and the text.
ghost use Rattle.std.specs.Prelude.{◌≡◌, ◌+◌, ◌%◌, ◌≤◌, sum as total};
ghost use Rattle.std.specs.Result.{result_err};
ghost use Rattle.chain.specs.Records.{next_of, used_of, check_of, record_damage};

use crate::damage::Damage;

// The next index, high byte first.
pub(crate) fn next_of(bytes: &[u8; 64]) -> u16
    ensures { result ≡ next_of bytes.now }
{
    u16::from_be_bytes([bytes[0], bytes[1]])
}

// A sum modulo 256, from one so far.
fn add_all(sum: u8, bytes: &[u8]) -> u8
    ensures { result ≡ (sum + total bytes.now) % 256 }
{
    bytes.iter().fold(sum, |sum, byte| sum.wrapping_add(*byte))
}

// The check that the record ought to have.
fn check_of(bytes: &[u8; 64]) -> u8
    requires { used_of bytes.now ≤ 60 }
    ensures { result ≡ check_of bytes.now }
{
    let text = &bytes[4..4 + usize::from(bytes[2])];
    add_all(add_all(0, &bytes[..3]), text)
}

// That nothing is wrong with a record.
pub(crate) fn sound(bytes: &[u8; 64]) -> Result<(), Damage>
    ensures { result_err result ≡ record_damage bytes.now }
{
    if bytes[2] > 60 {
        Err(Damage::TooLong)
    } else if bytes[3] == check_of(bytes) {
        Ok(())
    } else {
        Err(Damage::WrongCheck)
    }
}
