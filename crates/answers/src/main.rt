// Replays stored answers of the source. A line of the input is a text in hexadecimal (`-` where it is empty), the
// refusal's number, its place, and then the 24 words of each query given. Prints how many agree and which do not.
#![tactic(auto)]

ghost use Rattle.std.specs.Prelude.{ℕ, ◌≤◌, length, IfSome};

use exports::read::statement_read;
use std::io;
use std::io::{BufRead, BufReader};

// The bytes that pairs of small hexadecimal digits say at the front of a line, as many as there is room for.
fn unhex<'a>(line: &[u8], room: &'a mut [u8]) -> Option<&'a [u8]>
    ensures { IfSome result (λ text. length text.now ≤ length room.old) }
{
    let digits = line
        .iter()
        .take_while(|byte| matches!(**byte, b'0'..=b'9' | b'a'..=b'f'))
        .count();
    let n = (digits / 2).min(room.len());
    let text = &mut room[..n];
    hex::decode_to_slice(&line[..n * 2], text).ok()?;
    Some(text)
}

// A number of any length, modulo 2^64.
fn number(digits: &[u8]) -> u64 {
    digits.iter().fold(0, |n: u64, digit| {
        n.wrapping_mul(10)
            .wrapping_add(u64::from(digit.wrapping_sub(b'0')))
    })
}

// Whether the text of a line is read as the numbers behind it say; none where there are more records than room.
fn agrees(line: &[u8]) -> Option<bool> {
    // Fixed room, as a caller in C lends it, and beside it how many records were given: what is tried is that entry point.
    let mut room = [0; 4096];
    let mut records = [0; 12288];
    let mut outcome = [0; 4];
    let text = unhex(line, &mut room)?;
    // Where the text is empty, a `-` stands in its place.
    let said = line.get((text.len() * 2).max(1)..).unwrap_or(&[]);
    let given = statement_read(text, &mut records, &mut outcome);
    let end = usize::try_from(given).ok()?.checked_mul(24)?;
    let answer = outcome[..2].iter().chain(records.get(..end)?);
    let words = said
        .split(|byte| !byte.is_ascii_digit())
        .filter(|word| !word.is_empty())
        .map(number);
    Some(words.eq(answer.copied()))
}

fn main(rt: HostRuntime) -> io::Result<()> {
    let mut compared: u64 = 0;
    let mut differ: u64 = 0;
    for line in BufReader::new(rt.alloc(), rt.stdin())?.lines(rt.alloc()) {
        let line = line?;
        compared = compared.saturating_add(1);
        if agrees(line.as_bytes()) != Some(true) {
            differ = differ.saturating_add(1);
            println!(rt; "differs: {line}")?;
        }
    }
    println!(rt; "{compared} answers compared, {differ} differ")
}
