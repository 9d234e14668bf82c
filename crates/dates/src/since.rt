// The `since` form, and the date of a baseline.
ghost use Rattle.grammar.specs.Forms.{since_part, since, dated, on_date};
ghost use Rattle.scanner.specs.Position.{Reads, Yields};

use grammar::query::QueryAtom;
use scanner::class::Class;
use scanner::cursor::Cursor;
use scanner::trial::Trial;
use texts::text::Text;

// A month or a day: 1 where no digits stand, with or without a `-`.
fn parse_since_part<T: Text>(cursor: &mut Cursor<T>) -> u32
    ensures { Yields since_part result cursor.old cursor.new }
{
    if !cursor.eat(b'-') {
        return 1;
    }
    cursor.parse_u32().unwrap_or(1)
}

pub fn parse_since<T: Text>(cursor: &mut Cursor<T>) -> Option<QueryAtom>
    ensures { Reads since result cursor.old cursor.new }
{
    let mut trial = Trial::begin(cursor);
    if !trial.cursor.match_keyword(b"since") || !trial.cursor.eat_class(Class::Blank) {
        return None;
    }
    let year = trial.cursor.parse_i32()?;
    let month = parse_since_part(trial.cursor);
    let day = parse_since_part(trial.cursor);
    trial.accepted = true;
    Some(QueryAtom::Since { year, month, day })
}

// Year, month and day together, or nothing: a tuple, as the project's rules have it.
fn parse_baseline_date<T: Text>(cursor: &mut Cursor<T>) -> Option<(i64, u32, u32)>
    ensures { Reads dated result cursor.old cursor.new }
{
    let mut trial = Trial::begin(cursor);
    let year = trial.cursor.parse_four_digits()?;
    if !trial.cursor.eat(b'-') {
        return None;
    }
    let month = trial.cursor.parse_two_digits()?;
    if !trial.cursor.eat(b'-') {
        return None;
    }
    let day = trial.cursor.parse_two_digits()?;
    trial.accepted = true;
    Some((i64::from(year), month, day))
}

// `on` and a date, if `on` is there; without a date behind it there is no answer.
pub fn parse_on_date<T: Text>(cursor: &mut Cursor<T>) -> Option<Option<(i64, u32, u32)>>
    ensures { Reads on_date result cursor.old cursor.new }
{
    let mut trial = Trial::begin(cursor);
    if !trial.cursor.match_spaced_keyword(b"on") {
        return Some(None);
    }
    if !trial.cursor.skip_whitespace1() {
        return None;
    }
    let date = parse_baseline_date(trial.cursor)?;
    trial.accepted = true;
    Some(Some(date))
}
