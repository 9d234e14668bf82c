// Forms of one browser or runtime.
ghost use Rattle.std.specs.Prelude.{codes as bytes};
ghost use Rattle.grammar.specs.Form.{first};
ghost use Rattle.grammar.specs.Forms.{fully, partially, maintained_node, node, firefox_esr, operamini, phantom, defaults, dead, browser, browser_range};
ghost use Rattle.scanner.specs.Position.{Takes, Reads};
ghost use Rattle.grammar.specs.Rule.{else};
ghost use Rattle.grammar.specs.Tokens.{word};

use crate::supports::parse_kind_supports;
use grammar::query::{QueryAtom, SupportKind, VersionRange};
use scanner::cursor::Cursor;
use scanner::trial::Trial;
use texts::text::Text;

// `firefox`, `ff` or `fx`.
fn match_firefox<T: Text>(cursor: &mut Cursor<T>) -> bool
    ensures { Takes (else (word (bytes "firefox")) (else (word (bytes "ff")) (word (bytes "fx")))) result cursor.old cursor.new }
{
    cursor.match_keyword(b"firefox") || cursor.match_keyword(b"ff") || cursor.match_keyword(b"fx")
}

pub fn parse_firefox_esr<T: Text>(cursor: &mut Cursor<T>) -> Option<QueryAtom>
    ensures { Reads firefox_esr result cursor.old cursor.new }
{
    let mut trial = Trial::begin(cursor);
    trial.accepted = match_firefox(trial.cursor)
        && trial.cursor.skip_whitespace1()
        && trial.cursor.match_keyword(b"esr");
    trial.accepted.then_some(QueryAtom::FirefoxESR)
}

// A chain of `if let`, not `or_else`: the check knows nothing of what a closure borrowed and changed.
pub fn parse_firefox_or_fully<T: Text>(cursor: &mut Cursor<T>) -> Option<QueryAtom>
    ensures { Reads (first firefox_esr fully) result cursor.old cursor.new }
{
    if let Some(atom) = parse_firefox_esr(cursor) {
        return Some(atom);
    }
    parse_kind_supports(cursor, b"fully", Some(SupportKind::Fully))
}

// `operamini` or `op_mini`.
fn match_operamini<T: Text>(cursor: &mut Cursor<T>) -> bool
    ensures { Takes (else (word (bytes "operamini")) (word (bytes "op_mini"))) result cursor.old cursor.new }
{
    cursor.match_keyword(b"operamini") || cursor.match_keyword(b"op_mini")
}

pub fn parse_operamini<T: Text>(cursor: &mut Cursor<T>) -> Option<QueryAtom>
    ensures { Reads operamini result cursor.old cursor.new }
{
    let mut trial = Trial::begin(cursor);
    trial.accepted = match_operamini(trial.cursor)
        && trial.cursor.skip_whitespace1()
        && trial.cursor.match_keyword(b"all");
    trial.accepted.then_some(QueryAtom::OperaMini)
}

pub fn parse_maintained_node<T: Text>(cursor: &mut Cursor<T>) -> Option<QueryAtom>
    ensures { Reads maintained_node result cursor.old cursor.new }
{
    let mut trial = Trial::begin(cursor);
    trial.accepted = trial.cursor.match_keyword(b"maintained")
        && trial.cursor.skip_whitespace1()
        && trial.cursor.match_keyword(b"node")
        && trial.cursor.skip_whitespace1()
        && trial.cursor.match_keyword(b"versions");
    trial.accepted.then_some(QueryAtom::MaintainedNode)
}

pub fn parse_phantom<T: Text>(cursor: &mut Cursor<T>) -> Option<QueryAtom>
    ensures { Reads phantom result cursor.old cursor.new }
{
    let mut trial = Trial::begin(cursor);
    if !trial.cursor.match_keyword(b"phantomjs") || !trial.cursor.skip_whitespace1() {
        return None;
    }
    if trial.cursor.match_bytes(b"2.1") {
        trial.accepted = true;
        return Some(QueryAtom::Phantom(true));
    }
    if !trial.cursor.match_bytes(b"1.9") {
        return None;
    }
    trial.accepted = true;
    Some(QueryAtom::Phantom(false))
}

// A chain of `if let`, not `or_else`: the check knows nothing of what a closure borrowed and changed.
pub fn parse_phantom_or_partially<T: Text>(cursor: &mut Cursor<T>) -> Option<QueryAtom>
    ensures { Reads (first phantom partially) result cursor.old cursor.new }
{
    if let Some(atom) = parse_phantom(cursor) {
        return Some(atom);
    }
    parse_kind_supports(cursor, b"partially", Some(SupportKind::Partially))
}

pub fn parse_defaults_or_dead<T: Text>(cursor: &mut Cursor<T>) -> Option<QueryAtom>
    ensures { Reads (first defaults dead) result cursor.old cursor.new }
{
    if cursor.match_keyword(b"defaults") {
        return Some(QueryAtom::Defaults);
    }
    cursor.match_keyword(b"dead").then_some(QueryAtom::Dead)
}

pub fn parse_node<T: Text>(cursor: &mut Cursor<T>) -> Option<QueryAtom>
    ensures { Reads node result cursor.old cursor.new }
{
    let mut trial = Trial::begin(cursor);
    if !trial.cursor.match_keyword(b"node") {
        return None;
    }
    let range = trial.cursor.parse_version_range()?;
    trial.accepted = true;
    Some(QueryAtom::Node(range))
}

// A range, or blanks and `tp`. By a chain of `if let`, not `or_else`: the check knows nothing of what a closure borrowed and changed.
fn parse_browser_range<T: Text>(cursor: &mut Cursor<T>) -> Option<VersionRange>
    ensures { Reads browser_range result cursor.old cursor.new }
{
    if let Some(range) = cursor.parse_version_range() {
        return Some(range);
    }
    cursor
        .match_spaced_keyword(b"tp")
        .then_some(VersionRange::Preview)
}

pub fn parse_browser<T: Text>(cursor: &mut Cursor<T>) -> Option<QueryAtom>
    ensures { Reads browser result cursor.old cursor.new }
{
    let mut trial = Trial::begin(cursor);
    let name = trial.cursor.parse_identifier()?;
    let range = parse_browser_range(trial.cursor)?;
    trial.accepted = true;
    Some(QueryAtom::Browser(name, range))
}
