// The forms that count: `last` with years or versions, and `unreleased`.
ghost use Rattle.std.specs.Prelude.{◌≡◌, codes as bytes};
ghost use Rattle.grammar.specs.Form.{first, bind, spot, skip, give, part};
ghost use Rattle.grammar.specs.Forms.{named, years, last, unreleased};
ghost use Rattle.scanner.specs.Position.{Takes, Reads, Yields, stands};
ghost use Rattle.grammar.specs.Rule.{then};
ghost use Rattle.grammar.specs.Tokens.{blanks, word, versions, reserved, exactly, name as naming};

use grammar::query::{QueryAtom, Span};
use scanner::class::Class;
use scanner::cursor::Cursor;
use scanner::trial::Trial;
use texts::text::Text;

// A name that is just this word.
fn is_word<T: Text>(cursor: &Cursor<T>, word: &[u8]) -> bool
    ensures { result ≡ stands (exactly word.now) cursor.now }
{
    let mut behind = cursor.ahead();
    behind.match_bytes(word) && !behind.peek(Class::Naming)
}

fn is_versions<T: Text>(cursor: &Cursor<T>) -> bool
    ensures { result ≡ stands versions cursor.now }
{
    is_word(cursor, b"version") || is_word(cursor, b"versions")
}

fn is_reserved<T: Text>(cursor: &Cursor<T>) -> bool
    ensures { result ≡ stands reserved cursor.now }
{
    is_versions(cursor)
        || is_word(cursor, b"major")
        || is_word(cursor, b"year")
        || is_word(cursor, b"years")
}

// A name and blanks behind it.
fn parse_name<T: Text>(cursor: &mut Cursor<T>) -> Option<Span>
    ensures { Reads (bind (spot naming) (λ n. skip blanks (give {k = part} n))) result cursor.old cursor.new }
{
    let mut trial = Trial::begin(cursor);
    let name = trial.cursor.parse_identifier()?;
    if !trial.cursor.skip_whitespace1() {
        return None;
    }
    trial.accepted = true;
    Some(name)
}

// The browser's name behind `last` and a count. It stands beside the next as a function of its own: one that takes the
// test's answer binds the rule in its clause, and then the proofs of its callers don't close.
fn parse_last_name<T: Text>(cursor: &mut Cursor<T>) -> Option<Span>
    ensures { Yields (named reserved) result cursor.old cursor.new }
{
    if is_reserved(cursor) {
        return None;
    }
    parse_name(cursor)
}

// The browser's name behind `unreleased`.
fn parse_unreleased_name<T: Text>(cursor: &mut Cursor<T>) -> Option<Span>
    ensures { Yields (named versions) result cursor.old cursor.new }
{
    if is_versions(cursor) {
        return None;
    }
    parse_name(cursor)
}

pub fn parse_years<T: Text>(cursor: &mut Cursor<T>) -> Option<QueryAtom>
    ensures { Reads years result cursor.old cursor.new }
{
    let mut trial = Trial::begin(cursor);
    if !trial.cursor.match_keyword(b"last") || !trial.cursor.skip_whitespace1() {
        return None;
    }
    let years = trial.cursor.scan_number()?;
    if !trial.cursor.skip_whitespace1() || !trial.cursor.match_plural_keyword(b"year") {
        return None;
    }
    trial.accepted = true;
    Some(QueryAtom::Years(years))
}

pub fn parse_last<T: Text>(cursor: &mut Cursor<T>) -> Option<QueryAtom>
    ensures { Reads last result cursor.old cursor.new }
{
    let mut trial = Trial::begin(cursor);
    if !trial.cursor.match_keyword(b"last") || !trial.cursor.skip_whitespace1() {
        return None;
    }
    let count = trial.cursor.parse_u16()?;
    if !trial.cursor.skip_whitespace1() {
        return None;
    }
    let name = parse_last_name(trial.cursor);
    let major = trial.cursor.match_leading_keyword(b"major");
    if !trial.cursor.match_plural_keyword(b"version") {
        return None;
    }
    trial.accepted = true;
    Some(QueryAtom::Last { count, major, name })
}

// A chain of `if let`, not `or_else`: the check knows nothing of what a closure borrowed and changed.
pub fn parse_last_or_years<T: Text>(cursor: &mut Cursor<T>) -> Option<QueryAtom>
    ensures { Reads (first years last) result cursor.old cursor.new }
{
    if let Some(atom) = parse_years(cursor) {
        return Some(atom);
    }
    parse_last(cursor)
}

pub fn parse_unreleased<T: Text>(cursor: &mut Cursor<T>) -> Option<QueryAtom>
    ensures { Reads unreleased result cursor.old cursor.new }
{
    let mut trial = Trial::begin(cursor);
    if !trial.cursor.match_keyword(b"unreleased") || !trial.cursor.skip_whitespace1() {
        return None;
    }
    let name = parse_unreleased_name(trial.cursor);
    if !trial.cursor.match_plural_keyword(b"version") {
        return None;
    }
    trial.accepted = true;
    Some(QueryAtom::Unreleased(name))
}
