// Bytes copied out: a part of the caller's bytes, or the text of a pile.
ghost use Rattle.std.specs.Prelude.{◌≡◌, ℕ, map, length, MatchResult};
ghost use Rattle.texts.specs.Cells.{answer};
ghost use Rattle.words.specs.Copy.{overlaid, byte_shown, answer_shown, Copied, Uncopied};

use texts::text::Text;
use whole::part::part;
use whole::refusal::WholeRefusal;

// As many of the bytes as there is room for.
fn copy_front(out: &mut [u8], bytes: &[u8])
    ensures { out.new ≡ overlaid out.old bytes.now }
{
    let n = out.len().min(bytes.len());
    out[..n].copy_from_slice(&bytes[..n]);
}

// The caller's bytes from a place up to another, as many as there is room for. Answers how many they are.
pub fn copy_part(
    bytes: &[u8],
    start: usize,
    end: usize,
    out: &mut [u8],
) -> Result<usize, WholeRefusal>
    ensures { MatchResult result (Copied bytes.now start end out.old out.new) (Uncopied bytes.now start end out.old out.new) }
{
    let found = part(bytes, start, end)?;
    copy_front(out, found);
    Ok(found.len())
}

// What tells C of a bad cell: the byte that ASCII has for what is in error.
const SUBSTITUTE: u8 = 26;

fn shown_at<T: Text>(text: &T, place: usize) -> u8
    ensures { result ≡ answer_shown (answer (T.Text.cells text.now) place) }
{
    text.cell(place).ok().flatten().unwrap_or(SUBSTITUTE)
}

// The bytes of a text, as many as there is room for. Answers how many cells it has.
pub fn copy_text<T: Text>(text: &T, out: &mut [u8]) -> usize
    ensures long { result ≡ length (T.Text.cells text.now) }
    ensures copied { out.new ≡ overlaid out.old (map byte_shown (T.Text.cells text.now)) }
{
    let n = text.len();
    let room = n.min(out.len());
    for (place, byte) in out[..room].iter_mut().enumerate() {
        *byte = shown_at(text, place);
    }
    n
}
