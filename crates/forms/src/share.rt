// Forms with a share of users: `>`, `<` and `cover`; and `current node`, which begins with the same letter.
ghost use Rattle.grammar.specs.Form.{first};
ghost use Rattle.grammar.specs.Forms.{tail, percentage, cover, current_node};
ghost use Rattle.scanner.specs.Position.{Reads};

use grammar::query::{QueryAtom, Stats};
use scanner::cursor::Cursor;
use scanner::trial::Trial;
use texts::text::Text;

// Whose statistics count. Blanks without `in` behind them stay read.
fn parse_stats<T: Text>(cursor: &mut Cursor<T>) -> Option<Stats>
    ensures { Reads tail result cursor.old cursor.new }
{
    let mut trial = Trial::begin(cursor);
    if trial.cursor.match_spaced_keyword(b"in") {
        if !trial.cursor.skip_whitespace1() {
            return None;
        }
        let region = trial.cursor.parse_region()?;
        trial.accepted = true;
        return Some(Stats::Region(region));
    }
    trial.cursor.skip_whitespace();
    trial.accepted = true;
    Some(Stats::Global)
}

pub fn parse_percentage<T: Text>(cursor: &mut Cursor<T>) -> Option<QueryAtom>
    ensures { Reads percentage result cursor.old cursor.new }
{
    let mut trial = Trial::begin(cursor);
    let comparator = trial.cursor.parse_comparator()?;
    trial.cursor.skip_whitespace();
    let popularity = trial.cursor.scan_number()?;
    if !trial.cursor.eat(b'%') {
        return None;
    }
    let stats = parse_stats(trial.cursor)?;
    trial.accepted = true;
    Some(QueryAtom::Percentage {
        comparator,
        popularity,
        stats,
    })
}

pub fn parse_cover<T: Text>(cursor: &mut Cursor<T>) -> Option<QueryAtom>
    ensures { Reads cover result cursor.old cursor.new }
{
    let mut trial = Trial::begin(cursor);
    if !trial.cursor.match_keyword(b"cover") || !trial.cursor.skip_whitespace1() {
        return None;
    }
    let coverage = trial.cursor.scan_number()?;
    if !trial.cursor.eat(b'%') {
        return None;
    }
    let stats = parse_stats(trial.cursor)?;
    trial.accepted = true;
    Some(QueryAtom::Cover { coverage, stats })
}

pub fn parse_current_node<T: Text>(cursor: &mut Cursor<T>) -> Option<QueryAtom>
    ensures { Reads current_node result cursor.old cursor.new }
{
    let mut trial = Trial::begin(cursor);
    trial.accepted = trial.cursor.match_keyword(b"current")
        && trial.cursor.skip_whitespace1()
        && trial.cursor.match_keyword(b"node");
    trial.accepted.then_some(QueryAtom::CurrentNode)
}

// A chain of `if let`, not `or_else`: the check knows nothing of what a closure borrowed and changed.
pub fn parse_cover_or_current<T: Text>(cursor: &mut Cursor<T>) -> Option<QueryAtom>
    ensures { Reads (first cover current_node) result cursor.old cursor.new }
{
    if let Some(atom) = parse_cover(cursor) {
        return Some(atom);
    }
    parse_current_node(cursor)
}
