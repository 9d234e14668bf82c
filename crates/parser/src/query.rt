// A query with its `not`, and the separator between two queries.
ghost use Rattle.std.specs.Prelude.{codes as bytes};
ghost use Rattle.grammar.specs.Forms.{querying, missed, separating, unseparated};
ghost use Rattle.scanner.specs.Position.{Takes, ReadsOr};
ghost use Rattle.grammar.specs.Rule.{then};
ghost use Rattle.grammar.specs.Tokens.{word, blanks};

use crate::atom::parse_query_or_unknown;
use grammar::query::QueryAtom;
use scanner::cursor::Cursor;
use texts::text::Text;

// Whether the query is negated, and what it says. A missing query leaves the place where it is missed.
pub fn parse_single_query_atom<T: Text>(cursor: &mut Cursor<T>) -> Option<(bool, QueryAtom)>
    ensures { ReadsOr querying missed result cursor.old cursor.new }
{
    let negated = cursor.match_leading_keyword(b"not");
    parse_query_or_unknown(cursor).map(|atom| (negated, atom))
}

// Whether the separator is an `and`. A missing separator leaves the place where it is missed.
pub fn parse_composition_operator<T: Text>(cursor: &mut Cursor<T>) -> Option<bool>
    ensures { ReadsOr separating unseparated result cursor.old cursor.new }
{
    cursor.skip_whitespace();
    if cursor.eat(b',') {
        cursor.skip_whitespace();
        return Some(false);
    }
    if cursor.match_keyword(b"and") {
        return cursor.skip_whitespace1().then_some(true);
    }
    let found = cursor.match_keyword(b"or") && cursor.skip_whitespace1();
    found.then_some(false)
}
