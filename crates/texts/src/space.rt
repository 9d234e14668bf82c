// White space at either end of a text, told by its spellings in UTF-8.
ghost use Rattle.std.specs.Prelude.{◌≡◌, ℕ, ◌≤◌, cond, List, length, reverse, slice_index_or, refl};
ghost use Rattle.std.proofs.lemmas.List.{length-reverse};
ghost use Rattle.texts.specs.Codes.{codes, byte_code};
ghost use Rattle.texts.specs.Spaces.{single, double, triple, wide, space_from, space_back, space_width, front_narrow, back_narrow, leading, in_front, behind};

use crate::code::byte_at;
use crate::text::Text;

fn is_single(a: Option<u8>) -> bool
    ensures { result ≡ single (byte_code a) }
{
    matches!(a, Some(0x09..=0x0D | 0x20))
}

fn is_double(a: Option<u8>, b: Option<u8>) -> bool
    ensures { result ≡ double (byte_code a) (byte_code b) }
{
    matches!((a, b), (Some(0xC2), Some(0x85 | 0xA0)))
}

fn is_triple(a: Option<u8>, b: Option<u8>, c: Option<u8>) -> bool
    ensures { result ≡ triple (byte_code a) (byte_code b) (byte_code c) }
{
    match (a, b, c) {
        (Some(0xE1), Some(0x9A), Some(0x80)) => true,
        (Some(0xE2), Some(0x80), Some(0x80..=0x8A | 0xA8 | 0xA9 | 0xAF)) => true,
        (Some(0xE2), Some(0x81), Some(0x9F)) => true,
        (Some(0xE3), Some(0x80), Some(0x80)) => true,
        _ => false,
    }
}

// How many cells a white space character takes, by how many spell one.
fn width(one: bool, two: bool, three: bool) -> Option<usize>
    ensures { result ≡ wide (space_width one two three) }
{
    if one {
        Some(1)
    } else if two {
        Some(2)
    } else if three {
        Some(3)
    } else {
        None
    }
}

// An end of a text, from which its cells are met one after another.
trait End {
    // the codes as they are met
    ghost met: { List ℕ → List ℕ };

    // how many cells the white space character takes that is met with three codes; 0 where there is none
    ghost space: { ℕ → ℕ → ℕ → ℕ };

    fn byte<T: Text>(text: &T, place: usize) -> Option<u8>
        ensures { byte_code result ≡ slice_index_or (met (codes (T.Text.cells text.now))) place 256 };

    fn space(a: Option<u8>, b: Option<u8>, c: Option<u8>) -> Option<usize>
        ensures { result ≡ wide (space (byte_code a) (byte_code b) (byte_code c)) };

    ghost all_met: { (cs : List ℕ) → length (met cs) ≡ length cs };

    ghost narrow: { (a b c : ℕ) → space a b c ≤ 3 };

    ghost none_past: { space 256 256 256 ≡ 0 };
}

struct Front;

impl End for Front {
    ghost met = { λ cs. cs };

    ghost space = { space_from };

    fn byte<T: Text>(text: &T, place: usize) -> Option<u8> {
        byte_at(text, place)
    }

    fn space(a: Option<u8>, b: Option<u8>, c: Option<u8>) -> Option<usize> {
        width(is_single(a), is_double(a, b), is_triple(a, b, c))
    }

    ghost all_met = { λ cs. refl };

    ghost narrow = { front_narrow };

    ghost none_past = { refl };
}

struct Behind;

impl End for Behind {
    ghost met = { reverse };

    ghost space = { space_back };

    fn byte<T: Text>(text: &T, place: usize) -> Option<u8> {
        let last = text.len().checked_sub(1)?;
        byte_at(text, last.checked_sub(place)?)
    }

    // The last byte of a character is met first.
    fn space(c: Option<u8>, b: Option<u8>, a: Option<u8>) -> Option<usize> {
        width(is_single(c), is_double(b, c), is_triple(a, b, c))
    }

    ghost all_met = { length-reverse };

    ghost narrow = { back_narrow };

    ghost none_past = { refl };
}

// How many cells the white space at an end takes. A step is as wide as its character, so that no `for` counts it.
fn space_at<E: End, T: Text>(text: &T) -> usize
    ensures { result ≡ leading E.space (E.met (codes (T.Text.cells text.now))) 0 }
{
    let mut place = 0;
    while let Some(wide) = E::space(
        E::byte(text, place),
        E::byte(text, place + 1),
        E::byte(text, place + 2),
    ) {
        place += wide;
    }
    place
}

pub fn space_in_front<T: Text>(text: &T) -> usize
    ensures { result ≡ in_front (codes (T.Text.cells text.now)) }
{
    space_at::<Front, T>(text)
}

pub fn space_behind<T: Text>(text: &T) -> usize
    ensures { result ≡ behind (codes (T.Text.cells text.now)) }
{
    space_at::<Behind, T>(text)
}
