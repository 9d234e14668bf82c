use exports::read::statement_read;
use std::process::Abort;

// The forms, each by its number in a record that C reads.
#[derive(Clone, Copy)]
enum Form {
    Last = 1,
    Unreleased,
    Years,
    Since,
    Percentage,
    Cover,
    Supports,
    Electron,
    Node,
    Browser,
    Baseline,
    FirefoxESR,
    OperaMini,
    CurrentNode,
    MaintainedNode,
    Phantom,
    Defaults,
    Dead,
    Unknown,
}

// What is expected of a query: raw start, raw end, negated, is_and, form.
type Line = (u64, u64, u64, u64, Form);

// The words that its record begins with, as C reads them.
fn words(line: &Line) -> [u64; 5] {
    let (start, end, negated, is_and, form) = *line;
    [start, end, negated, is_and, form as u64]
}

// The statement gives these queries, and ends with this refusal number and place (0 and 0 at its end): words that C
// reads, so they stay numbers.
fn reads(rt: &impl Abort, text: &[u8], lines: &[Line], ended: [u64; 2]) {
    let mut records = [0; 240];
    let mut outcome = [0; 4];
    let given = statement_read(text, &mut records, &mut outcome);
    assert_eq!(rt; given, lines.len() as u64);
    assert!(rt; lines.len() <= 10);
    for (record, line) in records.chunks_exact(24).zip(lines) {
        assert!(rt; record.starts_with(&words(line)));
    }
    assert!(rt; outcome.starts_with(&ended));
}

// One query over the whole text, of this form.
fn whole(rt: &impl Abort, text: &[u8], form: Form) {
    reads(rt, text, &[(0, text.len() as u64, 0, 0, form)], [0, 0]);
}

// The word of the first query's record at an index.
fn word(rt: &impl Abort, text: &[u8], index: usize, expected: u64) {
    let mut records = [0; 24];
    let mut outcome = [0; 4];
    let given = statement_read(text, &mut records, &mut outcome);
    assert!(rt; given > 0);
    assert_eq!(rt; records.get(index).copied(), Some(expected));
}

// Here and below calls and no table: a row would hold the same values, and a slice of its own in each.
#[test]
fn worked_statements(rt: HostRuntime) {
    reads(
        &rt,
        b"dead and not chrome tp",
        &[(0, 4, 0, 0, Form::Dead), (9, 22, 1, 1, Form::Browser)],
        [0, 0],
    );
    reads(
        &rt,
        b"phantomjs 2.15",
        &[(0, 13, 0, 0, Form::Phantom)],
        [3, 13],
    );
    reads(&rt, b"chrome 5,", &[(0, 8, 0, 0, Form::Browser)], [3, 9]);
    reads(&rt, b"a,,b", &[(0, 1, 0, 0, Form::Unknown)], [3, 2]);
    reads(&rt, b"chrome 5..", &[(0, 9, 0, 0, Form::Browser)], [3, 9]);
    reads(
        &rt,
        b"last 1.5 versions",
        &[(0, 8, 0, 0, Form::Browser)],
        [3, 9],
    );
    reads(&rt, b"electron", &[], [3, 0]);
    reads(&rt, b"x, electron", &[(0, 1, 0, 0, Form::Unknown)], [3, 11]);
    whole(&rt, b"electron foo", Form::Unknown);
    reads(&rt, b"not 5", &[(0, 5, 1, 0, Form::Unknown)], [0, 0]);
    whole(&rt, b"not", Form::Unknown);
    reads(
        &rt,
        b"> 1% , dead",
        &[(0, 5, 0, 0, Form::Percentage), (7, 11, 0, 0, Form::Dead)],
        [0, 0],
    );
    reads(
        &rt,
        b"a ,b",
        &[(0, 2, 0, 0, Form::Unknown), (3, 4, 0, 0, Form::Unknown)],
        [0, 0],
    );
}

#[test]
fn missed_places(rt: HostRuntime) {
    reads(&rt, b"not electron", &[], [3, 0]);
    reads(&rt, b"not ,y", &[], [3, 0]);
    reads(
        &rt,
        b"x, not electron",
        &[(0, 1, 0, 0, Form::Unknown)],
        [3, 15],
    );
    reads(&rt, b"x, not ,y", &[(0, 1, 0, 0, Form::Unknown)], [3, 7]);
    reads(&rt, b"dead and,x", &[(0, 4, 0, 0, Form::Dead)], [3, 8]);
    reads(&rt, b"dead andx", &[(0, 4, 0, 0, Form::Dead)], [3, 5]);
    reads(
        &rt,
        b"chrome 5and dead",
        &[(0, 8, 0, 0, Form::Browser), (12, 16, 0, 1, Form::Dead)],
        [0, 0],
    );
    whole(&rt, b"x and", Form::Unknown);
    reads(&rt, b" chrome 5,", &[(0, 8, 0, 0, Form::Browser)], [3, 9]);
}

#[test]
fn numbers_wrap(rt: HostRuntime) {
    for (text, index, expected) in [
        (b"last 65537 versions".as_slice(), 7, 1),
        (b"since 4294969316", 7, 2020),
        (b"since -2147483648", 7, 2147483648),
        (b"since 2020--5", 8, 1),
        (b"since 2020--5", 9, 5),
        (b"baseline 4294967296", 5, 3),
        (b"baseline 4294967295", 5, 2),
        (b"baseline 2022", 5, 1),
    ] {
        word(&rt, text, index, expected);
    }
}

#[test]
fn forms_of_the_readme(rt: HostRuntime) {
    for (text, form) in [
        (b"defaults".as_slice(), Form::Defaults),
        (b"> 5%", Form::Percentage),
        (b">= 5%", Form::Percentage),
        (b"< 5%", Form::Percentage),
        (b"> 5% in US", Form::Percentage),
        (b"> 5% in alt-AS", Form::Percentage),
        (b"cover 99.5%", Form::Cover),
        (b"cover 99.5% in US", Form::Cover),
        (b"dead", Form::Dead),
        (b"last 2 versions", Form::Last),
        (b"last 2 Chrome versions", Form::Last),
        (b"last 2 major versions", Form::Last),
        (b"last 2 iOS major versions", Form::Last),
        (b"last 2 years", Form::Years),
        (b"last 1.5 years", Form::Years),
        (b"unreleased versions", Form::Unreleased),
        (b"unreleased Chrome versions", Form::Unreleased),
        (b"since 2015", Form::Since),
        (b"since 2015-03-10", Form::Since),
    ] {
        whole(&rt, text, form);
    }
}

#[test]
fn more_forms_of_the_readme(rt: HostRuntime) {
    for (text, form) in [
        (b"node 10".as_slice(), Form::Node),
        (b"node 10.4", Form::Node),
        (b"current node", Form::CurrentNode),
        (b"maintained node versions", Form::MaintainedNode),
        (b"iOS 7", Form::Browser),
        (b"Firefox > 20", Form::Browser),
        (b"ie 6-8", Form::Browser),
        (b"Firefox ESR", Form::FirefoxESR),
        (b"op_mini all", Form::OperaMini),
        (b"PhantomJS 2.1", Form::Phantom),
        (b"Electron >= 0.34", Form::Electron),
        (b"supports es6-module", Form::Supports),
        (b"partially supports css-grid", Form::Supports),
        (b"baseline widely available", Form::Baseline),
        (
            b"baseline widely available on 2024-06-01 with downstream",
            Form::Baseline,
        ),
        (b"baseline newly available including kaios", Form::Baseline),
        (
            b"baseline 2022 with downstream including kaios",
            Form::Baseline,
        ),
        (b"extends browserslist-config-mycompany", Form::Unknown),
        (b"browserslist config", Form::Unknown),
    ] {
        whole(&rt, text, form);
    }
}

#[test]
fn bad_input(rt: HostRuntime) {
    reads(&rt, b"", &[], [0, 0]);
    reads(&rt, b" \t\n ", &[], [0, 0]);
    reads(&rt, b"\xff", &[], [2, 0]);
    reads(&rt, b" \xff", &[], [2, 1]);
    reads(&rt, b"\xe2\x80A", &[], [2, 0]);
    reads(&rt, b"a\x00b", &[(0, 3, 0, 0, Form::Unknown)], [0, 0]);
    reads(&rt, b"\x1c5%", &[(0, 3, 0, 0, Form::Unknown)], [0, 0]);
    reads(
        &rt,
        b"\xe2\x80\x83dead\xc2\xa0",
        &[(0, 4, 0, 0, Form::Dead)],
        [0, 0],
    );
    reads(&rt, b"dead\ndead", &[(0, 4, 0, 0, Form::Dead)], [3, 4]);
    reads(
        &rt,
        &[b'a'; 16384],
        &[(0, 16384, 0, 0, Form::Unknown)],
        [0, 0],
    );
    reads(&rt, &[b'a'; 16385], &[], [1, 0]);
}
