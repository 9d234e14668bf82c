// Piles of layers over chain memories, good and damaged, as they are shown.
#![tactic(auto)]

mod memory;
mod show;

use chain::store::ChainStore;
use layers::cover::Cover;
use layers::join::Join;
use listing::print_reading;
use memory::{chain_of, front, record, ring, spoilt};
use show::{show, show_end};
use std::io;
use texts::store::ByteStore;
use texts::trim::Trim;

// The trim of the join of a cover over a chain with more bytes.
type Pile<'a> = Trim<Join<Cover<ChainStore<'a>>, ByteStore<'a>>>;

fn pile_of<'a>(chain: ChainStore<'a>, more: &'a [u8]) -> Pile<'a> {
    Trim::new(Join::new(Cover::new(chain), ByteStore::new(more)))
}

// A chain, then its pile with more bytes, and the cover of both joined.
fn pile(rt: &HostRuntime, name: &str, chain: ChainStore, more: &[u8]) -> io::Result<()> {
    show(rt, name, &chain)?;
    show(rt, "  trim of join of cover", &pile_of(chain, more))?;
    show(
        rt,
        "  cover of join",
        &Cover::new(Join::new(&chain, ByteStore::new(more))),
    )
}

// What a reader answers on the pile of a chain with more bytes.
fn read(rt: &HostRuntime, name: &str, chain: ChainStore, more: &[u8]) -> io::Result<()> {
    println!(rt; "read: {name}")?;
    print_reading(rt, &pile_of(chain, more))
}

// A statement of two records and the site's own, good and with each kind of damage.
fn readings(rt: &HostRuntime) -> io::Result<()> {
    let memory = chain_of(
        rt.alloc(),
        &[
            record(2, b"last 2 versions # factory\r\n"),
            record(0, b"and not dead\n"),
        ],
    )?;
    let site = b"chrome >= 60 or current node";
    for (name, first, more) in [
        ("good", 1, site.as_slice()),
        ("index past the memory", 3, site),
        ("text outside the grammar", 1, b"x, electron"),
        ("text that is not UTF-8", 2, b"\xff"),
    ] {
        read(rt, name, ChainStore::new(&memory, first), more)?;
    }
    let mut memory = memory;
    for (name, place, byte) in [
        ("wrong check", 64 + 1, 1),
        ("ring", 64 + 3, 106),
        ("61 bytes used", 64 + 2, 61),
    ] {
        memory = spoilt(memory, place, byte);
        read(rt, name, ChainStore::new(&memory, 1), site)?;
    }
    Ok(())
}

// A good chain that goes from the first record to the third and back to the second.
fn good(rt: &HostRuntime) -> io::Result<()> {
    let memory = chain_of(
        rt.alloc(),
        &[
            record(3, b"  # all\nchrome 5"),
            record(0, b" # old\r > 1%\n  "),
            record(2, b",\r\nfirefox"),
        ],
    )?;
    for (name, first, more) in [
        ("good", 1, b"dead # all\n".as_slice()),
        ("no second text", 1, b""),
        ("no first text", 0, b"dead # all\n"),
        ("comment without an end", 3, b"# x"),
    ] {
        pile(rt, name, ChainStore::new(&memory, first), more)?;
    }
    Ok(())
}

const MORE: &[u8] = b" x\n y ";

// Memories with no record, and one with a record that follows itself.
fn few(rt: &HostRuntime) -> io::Result<()> {
    let one = record(1, b"#x");
    for (name, memory, first) in [
        ("no record, no index", b"".as_slice(), 0),
        ("no record, index 1", b"", 1),
        ("part of a record", front(&one, 63), 1),
        ("record that follows itself", &one, 1),
    ] {
        pile(rt, name, ChainStore::new(memory, first), MORE)?;
    }
    Ok(())
}

// Indices that lead nowhere or round.
fn indices(rt: &HostRuntime) -> io::Result<()> {
    let three = chain_of(
        rt.alloc(),
        &[record(2, b" a"), record(1, b"b#"), record(9, b"c")],
    )?;
    for (name, memory, first) in [
        ("first index past the memory", three.as_slice(), 4),
        ("next index past the memory", &three, 3),
        ("ring of two in three records", &three, 1),
        ("part of the second record", front(&three, 127), 1),
    ] {
        pile(rt, name, ChainStore::new(memory, first), MORE)?;
    }
    Ok(())
}

// Chains of two records with another byte at a place.
fn records(rt: &HostRuntime) -> io::Result<()> {
    for (name, place, byte) in [
        ("wrong index", 1, 3),
        ("wrong check", 3, 0),
        ("wrong text", 64 + 5, b'E'),
        ("61 bytes used", 64 + 2, 61),
        ("255 bytes used", 64 + 2, 255),
        ("unused byte", 64 + 63, 1),
    ] {
        let memory = chain_of(rt.alloc(), &[record(2, b" # good\n"), record(0, b"text")])?;
        let memory = spoilt(memory, place, byte);
        pile(rt, name, ChainStore::new(&memory, 1), MORE)?;
    }
    Ok(())
}

// Chains of as many records as count, and of more. Calls and no table, since the texts are of several types.
fn rings(rt: &HostRuntime) -> io::Result<()> {
    let memory = ring(rt.alloc(), 257)?;
    let round = ChainStore::new(front(&memory, 16384), 1);
    show_end(rt, "ring of 256 records", &round)?;
    show_end(rt, "cover of the ring", &Cover::new(&round))?;
    let some = ByteStore::new(front(&memory, 1022));
    show_end(rt, "join that fits", &Join::new(&round, some))?;
    let much = ByteStore::new(front(&memory, 1023));
    show_end(rt, "join that does not fit", &Join::new(&round, much))?;
    show_end(rt, "record 257 of 257", &ChainStore::new(&memory, 257))?;
    show_end(rt, "from record 255 of 257", &ChainStore::new(&memory, 255))
}

fn main(rt: HostRuntime) -> io::Result<()> {
    good(&rt)?;
    few(&rt)?;
    indices(&rt)?;
    records(&rt)?;
    rings(&rt)?;
    readings(&rt)
}
