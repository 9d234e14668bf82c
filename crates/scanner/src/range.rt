// Versions, comparators and version ranges.
ghost use Rattle.std.specs.Prelude.{◌≡◌, is_some};
ghost use Rattle.grammar.specs.Form.{spot, first};
ghost use Rattle.grammar.specs.Forms.{comparing, bounded, unbounded, accurate, ranging};
ghost use Rattle.grammar.specs.Rule.{ends, run};
ghost use Rattle.grammar.specs.Tokens.{inner, version};
ghost use Rattle.scanner.specs.Position.{Skips, Reads};

use crate::class::Class;
use crate::cursor::Cursor;
use crate::trial::Trial;
use grammar::query::{Comparator, Span, VersionRange};
use texts::text::Text;

impl<T: Text> Cursor<T> {
    // Whether the version goes on: with a digit, or with a point that a digit or a point follows.
    fn goes_on(&self) -> bool
        ensures { result ≡ is_some (ends inner self.now.text self.now.place) }
    {
        let mut behind = self.ahead();
        self.peek(Class::Digit) || behind.eat(b'.') && behind.peek(Class::Numeral)
    }

    fn skip_inner(&mut self)
        ensures { Skips (run inner) self.old self.new }
    {
        while self.goes_on() {
            self.advance();
        }
    }

    // A version starts with a digit and does not end with a point.
    pub fn parse_version(&mut self) -> Option<Span>
        ensures { Reads (spot version) result self.old self.new }
    {
        let start = self.place();
        if !self.eat_class(Class::Digit) {
            return None;
        }
        self.skip_inner();
        Some(self.span_from(start))
    }

    pub fn parse_comparator(&mut self) -> Option<Comparator>
        ensures { Reads comparing result self.old self.new }
    {
        if self.eat(b'<') {
            return if self.eat(b'=') {
                Some(Comparator::LessOrEqual)
            } else {
                Some(Comparator::Less)
            };
        }
        if self.eat(b'>') {
            return if self.eat(b'=') {
                Some(Comparator::GreaterOrEqual)
            } else {
                Some(Comparator::Greater)
            };
        }
        None
    }

    // ` 1.0 - 2.0`
    fn parse_bounded(&mut self) -> Option<VersionRange>
        ensures { Reads bounded result self.old self.new }
    {
        let mut trial = Trial::begin(self);
        if !trial.cursor.skip_whitespace1() {
            return None;
        }
        let from = trial.cursor.parse_version()?;
        trial.cursor.skip_whitespace();
        if !trial.cursor.eat(b'-') {
            return None;
        }
        trial.cursor.skip_whitespace();
        let to = trial.cursor.parse_version()?;
        trial.accepted = true;
        Some(VersionRange::Bounded(from, to))
    }

    // ` >= 1.0`
    fn parse_unbounded(&mut self) -> Option<VersionRange>
        ensures { Reads unbounded result self.old self.new }
    {
        let mut trial = Trial::begin(self);
        trial.cursor.skip_whitespace();
        let comparator = trial.cursor.parse_comparator()?;
        trial.cursor.skip_whitespace();
        let version = trial.cursor.parse_version()?;
        trial.accepted = true;
        Some(VersionRange::Unbounded(comparator, version))
    }

    // ` 1.0`
    fn parse_accurate(&mut self) -> Option<VersionRange>
        ensures { Reads accurate result self.old self.new }
    {
        let mut trial = Trial::begin(self);
        if !trial.cursor.skip_whitespace1() {
            return None;
        }
        let version = trial.cursor.parse_version()?;
        trial.accepted = true;
        Some(VersionRange::Accurate(version))
    }

    // No `or_else`, here and in the forms: the check knows nothing of what a closure borrowed and changed.
    pub fn parse_version_range(&mut self) -> Option<VersionRange>
        ensures { Reads ranging result self.old self.new }
    {
        if let Some(range) = self.parse_bounded() {
            return Some(range);
        }
        if let Some(range) = self.parse_unbounded() {
            return Some(range);
        }
        self.parse_accurate()
    }
}
