// Bytes for scanners: none where a text has no cell, or a bad one.
ghost use Rattle.std.specs.Prelude.{◌≡◌, slice_index_or};
ghost use Rattle.texts.specs.Codes.{codes, byte_code};

use crate::text::Text;

// The byte at a place, or none where there is no cell or a bad one.
pub fn byte_at<T: Text>(text: &T, place: usize) -> Option<u8>
    ensures { byte_code result ≡ slice_index_or (codes (T.Text.cells text.now)) place 256 }
{
    text.cell(place).ok().flatten()
}
