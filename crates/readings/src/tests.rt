// Whole readings in slots, parts and fields, by the entry points and by lists.
use grammar::query::{QueryAtom, SingleQuery, Span};
use interface::memory::{statement_chain_count, statement_chain_text};
use interface::statement::{
    statement_count, statement_field, statement_fill, statement_offset, statement_part,
};
use std::test::Fail;
use texts::store::ByteStore;
use texts::text::Text;
use whole::part::part;
use whole::reading::{Reading, Separator};
use whole::refusal::WholeRefusal;
use whole::whole::read_whole;

// What stands in a word until it is written.
const UNTOUCHED: u64 = 77;

#[test]
fn fills_what_belongs_and_no_more(rt: HostRuntime) {
    let mut queries = [UNTOUCHED; 72];
    let mut separators = [UNTOUCHED; 4];
    let mut outcome = [UNTOUCHED; 6];
    let n = statement_fill(
        b" dead or not ie 6",
        &mut queries,
        &mut separators,
        &mut outcome,
    );
    assert_eq!(rt; n, 2);
    assert_eq!(rt; (queries[0], queries[1], queries[4]), (0, 4, 18));
    assert_eq!(rt; &queries[24..27], [8, 16, 1].as_slice());
    assert_eq!(rt; queries[47], 0);
    assert_eq!(rt; &queries[48..], [UNTOUCHED; 24].as_slice());
    assert_eq!(rt; separators, [4, 8, UNTOUCHED, UNTOUCHED]);
    assert_eq!(rt; outcome, [0, 0, 0, 0, 2, UNTOUCHED]);
}

#[test]
fn one_slot_too_few(rt: HostRuntime) {
    let mut queries = [UNTOUCHED; 47];
    let mut separators = [UNTOUCHED; 2];
    let mut outcome = [UNTOUCHED; 5];
    assert_eq!(rt;
        statement_fill(b"a, b", &mut queries, &mut separators, &mut outcome),
        0
    );
    assert_eq!(rt; outcome, [4, 0, 0, 0, 2]);
    assert_eq!(rt; queries, [UNTOUCHED; 47]);
    let mut queries = [UNTOUCHED; 48];
    let mut separators = [UNTOUCHED; 1];
    assert_eq!(rt;
        statement_fill(b"a, b", &mut queries, &mut separators, &mut outcome),
        0
    );
    assert_eq!(rt; outcome, [4, 0, 0, 0, 2]);
    assert_eq!(rt; queries, [UNTOUCHED; 48]);
    assert_eq!(rt; separators, [UNTOUCHED; 1]);
    // What is no reading is refused as that, slots or not.
    assert_eq!(rt; statement_fill(b"a,,b", &mut [], &mut [], &mut outcome), 0);
    assert_eq!(rt; outcome, [3, 2, 0, 0, 0]);
}

#[test]
fn nothing_and_one(rt: HostRuntime) {
    let mut outcome = [UNTOUCHED; 5];
    assert_eq!(rt; statement_fill(b" ", &mut [], &mut [], &mut outcome), 0);
    assert_eq!(rt; outcome, [0, 0, 0, 0, 0]);
    let mut queries = [UNTOUCHED; 24];
    assert_eq!(rt;
        statement_fill(b"dead", &mut queries, &mut [], &mut outcome),
        1
    );
    assert_eq!(rt; outcome, [0, 0, 0, 0, 1]);
    assert_eq!(rt; queries[1], 4);
    assert_eq!(rt; statement_count(b"dead, dead and dead", &mut outcome), 3);
    assert_eq!(rt; statement_count(&[b'a'; 16385], &mut outcome), 0);
    assert_eq!(rt; outcome, [1, 0, 5, 0, 0]);
}

#[test]
fn fields_and_parts(rt: HostRuntime) -> Result<(), Fail> {
    assert_eq!(rt; statement_field(b"a, last 7 versions", 1, 7), 7);
    assert_eq!(rt; statement_field(b"a, last 7 versions", 2, 7), u64::MAX);
    assert_eq!(rt; statement_field(b"a, last 7 versions", 1, 24), u64::MAX);
    assert_eq!(rt; statement_field(b"a,,", 0, 1), 1);
    assert_eq!(rt; statement_field(b"a,,", 1, 1), u64::MAX);
    assert_eq!(rt; statement_offset(b"\xe2\x80\x83 x"), 4);
    let mut out = [b'-'; 3];
    let mut outcome = [UNTOUCHED; 5];
    assert_eq!(rt; statement_part(b"abcd", 1, 3, &mut out, &mut outcome), 2);
    assert_eq!(rt; out, *b"bc-");
    assert_eq!(rt; outcome, [0, 0, 0, 0, 2]);
    assert_eq!(rt; statement_part(b"abcd", 4, 4, &mut out, &mut outcome), 0);
    assert_eq!(rt; outcome[0], 0);
    assert_eq!(rt; statement_part(b"abcd", 3, 5, &mut out, &mut outcome), 0);
    assert_eq!(rt; (outcome[0], out[0]), (6, b'b'));
    assert_eq!(rt; statement_part(b"abcd", 3, 2, &mut out, &mut outcome), 0);
    assert_eq!(rt; outcome[0], 6);
    assert_eq!(rt; part(b"abcd", 1, 4)?.len(), 3);
    Ok(())
}

// One record of a chain: `x#y` in record 1, whose check is right.
#[test]
fn chain_under_a_cover(rt: HostRuntime) {
    let mut memory = [0; 64];
    // 3 + 120 + 35 + 121 is 279, which is 23 modulo 256.
    memory[2..7].copy_from_slice(&[3, 23, b'x', b'#', b'y']);
    let mut outcome = [UNTOUCHED; 5];
    assert_eq!(rt; statement_chain_count(&memory, 1, &mut outcome), 1);
    let mut out = [b'-'; 4];
    assert_eq!(rt; statement_chain_text(&memory, 1, &mut out), 3);
    assert_eq!(rt; out, *b"x  -");
    memory[3] = 24;
    assert_eq!(rt; statement_chain_count(&memory, 1, &mut outcome), 0);
    assert_eq!(rt; &outcome[..3], [1, 0, 4].as_slice());
    assert_eq!(rt; statement_chain_count(&[], 0, &mut outcome), 0);
    assert_eq!(rt; outcome, [0, 0, 0, 0, 0]);
}

#[test]
fn lists_in_slots(rt: HostRuntime) -> Result<(), Fail> {
    let empty = SingleQuery {
        raw: Span { start: 9, end: 9 },
        atom: QueryAtom::Dead,
        negated: false,
        is_and: false,
    };
    let mut slots = [empty; 3];
    let mut between = [Separator { start: 9, end: 9 }; 2];
    let mut reading = Reading::new(&mut slots, &mut between);
    let n = read_whole(&ByteStore::new(b"a and b"), &mut reading)?;
    assert_eq!(rt;
        (n, reading.queries.len(), reading.separators.len()),
        (2, 2, 1)
    );
    let refused = read_whole(&ByteStore::new(b"a,b,c,d"), &mut reading);
    assert_eq!(rt; refused, Err(WholeRefusal::TooFewSlots { queries: 4 }));
    assert_eq!(rt; (reading.queries.len(), reading.separators.len()), (2, 1));
    assert_eq!(rt; (slots[1].raw.start, slots[1].is_and), (6, true));
    assert_eq!(rt; slots[2].raw.start, 9);
    assert_eq!(rt;
        (between[0].start, between[0].end, between[1].start),
        (1, 6, 9)
    );
    Ok(())
}
