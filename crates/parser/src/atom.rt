// A query's form, picked by its first letter.
ghost use Rattle.std.specs.Prelude.{None, codes as bytes};
ghost use Rattle.std.specs.Option.{unwrap_or};
ghost use Rattle.grammar.specs.Form.{first};
ghost use Rattle.grammar.specs.Forms.{since, supporting, browser, electron_or_browser, lettered, committed, formed};
ghost use Rattle.scanner.specs.Position.{Reads, ReadsOr};
ghost use Rattle.grammar.specs.Rule.{ends};
ghost use Rattle.grammar.specs.Tokens.{word};
ghost use Rattle.parser.specs.Letters.{keyworded, by_letter, left_by};

use crate::unknown::parse_unknown;
use dates::baseline::parse_baseline;
use dates::last::{parse_last_or_years, parse_unreleased};
use dates::since::parse_since;
use forms::browser::{
    parse_browser, parse_defaults_or_dead, parse_firefox_or_fully, parse_maintained_node,
    parse_node, parse_operamini, parse_phantom_or_partially,
};
use forms::share::{parse_cover_or_current, parse_percentage};
use forms::supports::parse_supports_only;
use grammar::query::QueryAtom;
use scanner::cursor::Cursor;
use texts::text::Text;

// By `if let` here and below, not `or_else`: the check knows nothing of what a closure borrowed and changed.
pub fn parse_since_or_supports<T: Text>(cursor: &mut Cursor<T>) -> Option<QueryAtom>
    ensures { Reads (first since (supporting None)) result cursor.old cursor.new }
{
    if let Some(atom) = parse_since(cursor) {
        return Some(atom);
    }
    parse_supports_only(cursor)
}

// `electron` and a range. Where the word stands without a range, the place stays behind the word.
fn parse_electron<T: Text>(cursor: &mut Cursor<T>) -> Option<QueryAtom>
    ensures { ReadsOr electron_or_browser (λ t p. unwrap_or (ends (word (bytes "electron")) t p) p) result cursor.old cursor.new }
{
    if cursor.match_keyword(b"electron") {
        let range = cursor.parse_version_range()?;
        return Some(QueryAtom::Electron(range));
    }
    parse_browser(cursor)
}

// A `match`, as in the source: through a table of functions no contract could be cited.
fn parse_keyworded<T: Text>(cursor: &mut Cursor<T>, letter: char) -> Option<QueryAtom>
    ensures { Reads (keyworded letter) result cursor.old cursor.new }
{
    match letter {
        'l' => parse_last_or_years(cursor),
        'u' => parse_unreleased(cursor),
        's' => parse_since_or_supports(cursor),
        'c' => parse_cover_or_current(cursor),
        'n' => parse_node(cursor),
        'f' => parse_firefox_or_fully(cursor),
        'o' => parse_operamini(cursor),
        'm' => parse_maintained_node(cursor),
        'p' => parse_phantom_or_partially(cursor),
        'b' => parse_baseline(cursor),
        'd' => parse_defaults_or_dead(cursor),
        _ => None,
    }
}

fn parse_keyworded_or_browser<T: Text>(cursor: &mut Cursor<T>, letter: char) -> Option<QueryAtom>
    ensures { Reads (first (keyworded letter) browser) result cursor.old cursor.new }
{
    if let Some(atom) = parse_keyworded(cursor, letter) {
        return Some(atom);
    }
    parse_browser(cursor)
}

// A `match`, as above.
fn parse_by_letter<T: Text>(cursor: &mut Cursor<T>, letter: char) -> Option<QueryAtom>
    ensures { ReadsOr (by_letter letter) (left_by letter) result cursor.old cursor.new }
{
    match letter {
        '<' | '>' => parse_percentage(cursor),
        'e' => parse_electron(cursor),
        'a'..='z' => parse_keyworded_or_browser(cursor, letter),
        _ => None,
    }
}

// The first letter picks the forms to try.
pub fn parse_query_atom<T: Text>(cursor: &mut Cursor<T>) -> Option<QueryAtom>
    ensures { ReadsOr lettered committed result cursor.old cursor.new }
{
    let letter = char::from(cursor.byte()?.to_ascii_lowercase());
    parse_by_letter(cursor, letter)
}

// The first form that fits, else the unknown run.
pub fn parse_query_or_unknown<T: Text>(cursor: &mut Cursor<T>) -> Option<QueryAtom>
    ensures { ReadsOr formed committed result cursor.old cursor.new }
{
    if let Some(atom) = parse_query_atom(cursor) {
        return Some(atom);
    }
    parse_unknown(cursor)
}
