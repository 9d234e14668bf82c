// The `baseline` form.
ghost use Rattle.std.specs.Prelude.{◌≡◌};
ghost use Rattle.grammar.specs.Forms.{newness, availability, available, baseline_kind, two_words, baselined};
ghost use Rattle.scanner.specs.Position.{Takes, Reads};

use crate::since::parse_on_date;
use grammar::query::{BaselineKind, QueryAtom};
use scanner::cursor::Cursor;
use scanner::trial::Trial;
use texts::text::Text;

// `newly` (true) or `widely` (false).
fn parse_newness<T: Text>(cursor: &mut Cursor<T>) -> Option<bool>
    ensures { Reads newness result cursor.old cursor.new }
{
    if cursor.match_keyword(b"newly") {
        return Some(true);
    }
    cursor.match_keyword(b"widely").then_some(false)
}

// The newly kind drops its date.
fn kind_of(newly: bool, date: Option<(i64, u32, u32)>) -> BaselineKind
    ensures { result ≡ availability newly date }
{
    match (newly, date) {
        (true, Some(_)) => BaselineKind::NewlyAvailableOnDate,
        (true, None) => BaselineKind::NewlyAvailable,
        (false, Some((year, month, day))) => BaselineKind::WidelyAvailableOnDate {
            year,
            month,
            day,
        },
        (false, None) => BaselineKind::WidelyAvailable,
    }
}

fn parse_available<T: Text>(cursor: &mut Cursor<T>) -> Option<BaselineKind>
    ensures { Reads available result cursor.old cursor.new }
{
    let mut trial = Trial::begin(cursor);
    let newly = parse_newness(trial.cursor)?;
    if !trial.cursor.skip_whitespace1() || !trial.cursor.match_keyword(b"available") {
        return None;
    }
    let date = parse_on_date(trial.cursor)?;
    trial.accepted = true;
    Some(kind_of(newly, date))
}

// A chain of `if let`, not `or_else`: the check knows nothing of what a closure borrowed and changed.
fn parse_baseline_kind<T: Text>(cursor: &mut Cursor<T>) -> Option<BaselineKind>
    ensures { Reads baseline_kind result cursor.old cursor.new }
{
    if let Some(kind) = cursor.parse_baseline_year() {
        return Some(kind);
    }
    parse_available(cursor)
}

// Blanks, a word, blanks and another word.
fn match_two_words<T: Text>(cursor: &mut Cursor<T>, first: &[u8], second: &[u8]) -> bool
    ensures { Takes (two_words first.now second.now) result cursor.old cursor.new }
{
    let mut trial = Trial::begin(cursor);
    trial.accepted = trial.cursor.skip_whitespace1()
        && trial.cursor.match_keyword(first)
        && trial.cursor.skip_whitespace1()
        && trial.cursor.match_keyword(second);
    trial.accepted
}

pub fn parse_baseline<T: Text>(cursor: &mut Cursor<T>) -> Option<QueryAtom>
    ensures { Reads baselined result cursor.old cursor.new }
{
    let mut trial = Trial::begin(cursor);
    if !trial.cursor.match_keyword(b"baseline") || !trial.cursor.skip_whitespace1() {
        return None;
    }
    let kind = parse_baseline_kind(trial.cursor)?;
    let downstream = match_two_words(trial.cursor, b"with", b"downstream");
    let kaios = match_two_words(trial.cursor, b"including", b"kaios");
    trial.accepted = true;
    Some(QueryAtom::Baseline {
        kind,
        downstream,
        kaios,
    })
}
