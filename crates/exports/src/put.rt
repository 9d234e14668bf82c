// Records of numbers in a slice of numbers.
ghost use Rattle.std.specs.Prelude.{◌≡◌, ℕ};
ghost use Rattle.exports.specs.Put.{put_slot};

// Record n, where there is room for a whole one; else nothing is written. By slicing, since the library's chunks to write
// to say nothing of what the slice ends as.
pub fn put_slot<const WIDE: usize>(words: &mut [u64], n: usize, values: &[u64; WIDE])
    ensures { words.new ≡ put_slot words.old n values.now }
{
    if WIDE == 0 {
        return;
    }
    if n < words.len() / WIDE {
        let at = n * WIDE;
        words[at..at + WIDE].copy_from_slice(values);
    }
}
