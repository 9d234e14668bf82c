// Memories of records of 64 bytes.
ghost use Rattle.std.specs.Prelude.{◌≡◌, take};

use std::alloc::{AllocError, Global};

// A record with its check, of at most 60 bytes of text.
pub fn record(next: u16, text: &[u8]) -> [u8; 64] {
    let text = &text[..text.len().min(60)];
    let [high, low] = next.to_be_bytes();
    let head = [high, low, text.len() as u8];
    let mut bytes = [0; 64];
    bytes[..3].copy_from_slice(&head);
    bytes[3] = head
        .iter()
        .chain(text)
        .fold(0, |sum: u8, byte| sum.wrapping_add(*byte));
    bytes[4..4 + text.len()].copy_from_slice(text);
    bytes
}

// Records one behind another.
pub fn chain_of(heap: Global, records: &[[u8; 64]]) -> Result<Vec<u8>, AllocError> {
    records.as_flattened().to_vec(heap)
}

// A number of records, each with 60 bytes of text and followed by the next; the last leads to the first.
pub fn ring(heap: Global, count: u16) -> Result<Vec<u8>, AllocError> {
    let records: Vec<[u8; 64]> = (1..=count)
        .map(|number| record(if number < count { number + 1 } else { 1 }, &[b'o'; 60]))
        .collect(heap)?;
    chain_of(heap, &records)
}

// A memory with another byte at a place.
pub fn spoilt(mut memory: Vec<u8>, place: usize, byte: u8) -> Vec<u8> {
    if let Some(old) = memory.get_mut(place) {
        *old = byte;
    }
    memory
}

// The first bytes of a memory.
pub fn front(memory: &[u8], n: usize) -> &[u8]
    ensures { result.now ≡ take n memory.now }
{
    &memory[..n.min(memory.len())]
}
