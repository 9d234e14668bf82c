// Reads a support statement from standard input and prints a line for each of its queries:
// raw start, raw end, negated, is_and and the name of the form; then `ok` and how many, or `refused`, number and place.
#![tactic(auto)]

ghost use Rattle.std.specs.Prelude.{ℕ, ◌≤◌, length, IfOk};

use listing::print_reading;
use std::io;
use std::io::Read;
use texts::store::ByteStore;

// The bytes that were read: as many as there are or fit, also where they come in short reads.
fn fill<'a, R: Read>(input: &mut R, room: &'a mut [u8]) -> io::Result<&'a [u8]>
    ensures { IfOk result (λ bytes. length bytes.now ≤ length room.old) }
{
    let mut n = 0;
    // How far a read goes is known only then, so that no `for` counts it.
    while n < room.len() {
        match input.read(&mut room[n..])? {
            0 => break,
            got => n += got,
        }
    }
    Ok(&room[..n])
}

fn run(rt: &HostRuntime) -> io::Result<()> {
    // Fixed memory, as in firmware: a text of 16,384 bytes, and one byte more that tells of a longer one.
    let mut room = [0; 16385];
    print_reading(rt, &ByteStore::new(fill(&mut rt.stdin(), &mut room)?))
}

fn main(rt: HostRuntime) -> io::Result<()> {
    run(&rt).or_else(|error| {
        eprintln!(rt; "queries: input or output failed: {error}")?;
        Err(error)
    })
}
