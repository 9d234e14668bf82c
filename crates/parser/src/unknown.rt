// The unknown run: up to the next operator, or to the end.
ghost use Rattle.std.specs.Prelude.{◌≡◌, codes as bytes};
ghost use Rattle.grammar.specs.Forms.{unknown};
ghost use Rattle.scanner.specs.Position.{Takes, Skips, Reads, stands};
ghost use Rattle.grammar.specs.Rule.{run, else};
ghost use Rattle.grammar.specs.Tokens.{spelled, conjunction, operator, plain};
ghost use Rattle.parser.specs.Stride.{stride};

use grammar::query::QueryAtom;
use scanner::class::Class;
use scanner::cursor::Cursor;
use scanner::trial::Trial;
use texts::text::Text;

// `and` or `or`, and a blank.
fn match_conjunction<T: Text>(cursor: &mut Cursor<T>) -> bool
    ensures { Takes conjunction result cursor.old cursor.new }
{
    let mut trial = Trial::begin(cursor);
    trial.accepted = match_and_or(trial.cursor) && trial.cursor.eat_class(Class::Blank);
    trial.accepted
}

// `and` or `or`, whatever follows.
fn match_and_or<T: Text>(cursor: &mut Cursor<T>) -> bool
    ensures { Takes (else (spelled (bytes "and")) (spelled (bytes "or"))) result cursor.old cursor.new }
{
    cursor.match_bytes(b"and") || cursor.match_bytes(b"or")
}

fn at_composition_operator<T: Text>(cursor: &Cursor<T>) -> bool
    ensures { result ≡ stands operator cursor.now }
{
    let mut behind = cursor.ahead();
    behind.eat(b',') || behind.skip_whitespace1() && match_conjunction(&mut behind)
}

// A byte at which no operator stands.
fn is_plain<T: Text>(cursor: &Cursor<T>) -> bool
    ensures { result ≡ stands plain cursor.now }
{
    !at_composition_operator(cursor) && cursor.peek(Class::Present)
}

// Blanks at once, or one byte.
fn take_stride<T: Text>(cursor: &mut Cursor<T>)
    ensures { Skips stride cursor.old cursor.new }
{
    if !cursor.skip_whitespace1() {
        let _byte = cursor.eat_class(Class::Present);
    }
}

// Up to an operator or the end. A run of blanks is tested once, at its first blank:
// if no operator stands there, none stands at another of its blanks.
fn skip_plain<T: Text>(cursor: &mut Cursor<T>)
    ensures { Skips (run plain) cursor.old cursor.new }
{
    while is_plain(cursor) {
        take_stride(cursor);
    }
}

pub fn parse_unknown<T: Text>(cursor: &mut Cursor<T>) -> Option<QueryAtom>
    ensures { Reads unknown result cursor.old cursor.new }
{
    let start = cursor.place();
    if !is_plain(cursor) {
        return None;
    }
    skip_plain(cursor);
    Some(QueryAtom::Unknown(cursor.span_from(start)))
}
