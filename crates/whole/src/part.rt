// A part of the caller's bytes.
ghost use Rattle.std.specs.Prelude.{◌≡◌, Some, None, MatchResult};
ghost use Rattle.whole.specs.declared.refusal.WholeRefusal.TheVariants.{OutsideBytes};
ghost use Rattle.whole.specs.Parts.{part_of};

use crate::refusal::WholeRefusal;

// A part that starts behind its end, or ends behind the bytes: refusal 6.
#[derive(Clone, Copy, Debug)]
pub struct Outside;

impl From<Outside> for WholeRefusal {
    ghost from_gives = { λ _ r. r ≡ OutsideBytes };

    fn from(_: Outside) -> WholeRefusal {
        WholeRefusal::OutsideBytes
    }
}

// The caller's own bytes from a place up to another.
pub fn part(bytes: &[u8], start: usize, end: usize) -> Result<&[u8], Outside>
    ensures { MatchResult result (λ s. part_of bytes.now start end ≡ Some s.now) (λ _. part_of bytes.now start end ≡ None) }
{
    bytes.get(start..end).ok_or(Outside)
}
