// Tokens: blanks, numbers, names, features, regions.
ghost use Rattle.std.specs.Prelude.{◌≡◌, codes as bytes};
ghost use Rattle.grammar.specs.Classes.{digit};
ghost use Rattle.grammar.specs.Form.{spot};
ghost use Rattle.grammar.specs.Rule.{then, else, one};
ghost use Rattle.grammar.specs.Tokens.{some, byte, maybe, blanks, any_blanks, sign, fraction, numeric, name as naming, feature, region, spelled, word};
ghost use Rattle.scanner.specs.Position.{Takes, Skips, Reads};
ghost use Rattle.scanner.specs.Within.{within};

use crate::class::Class;
use crate::cursor::Cursor;
use crate::trial::Trial;
use grammar::query::Span;
use texts::text::Text;

impl<T: Text> Cursor<T> {
    pub fn skip_whitespace(&mut self)
        ensures { Skips any_blanks self.old self.new }
    {
        self.skip_class(Class::Blank);
    }

    pub fn skip_whitespace1(&mut self) -> bool
        ensures { Takes blanks result self.old self.new }
    {
        self.skip_class1(Class::Blank)
    }

    // Blanks and a word.
    pub fn match_spaced_keyword(&mut self, keyword: &[u8]) -> bool
        ensures { Takes (then blanks (word keyword.now)) result self.old self.new }
    {
        let mut trial = Trial::begin(self);
        trial.accepted = trial.cursor.skip_whitespace1() && trial.cursor.match_keyword(keyword);
        trial.accepted
    }

    // A word and blanks behind it.
    pub fn match_leading_keyword(&mut self, keyword: &[u8]) -> bool
        ensures { Takes (then (word keyword.now) blanks) result self.old self.new }
    {
        let mut trial = Trial::begin(self);
        trial.accepted = trial.cursor.match_keyword(keyword) && trial.cursor.skip_whitespace1();
        trial.accepted
    }

    fn eat_sign(&mut self)
        ensures { Skips (maybe sign) self.old self.new }
    {
        let _sign = self.eat(b'-') || self.eat(b'+');
    }

    fn eat_fraction(&mut self)
        ensures { Skips (maybe fraction) self.old self.new }
    {
        if self.eat(b'.') {
            self.skip_class(Class::Digit);
        }
    }

    // A point and digits, where no digit stands before the point.
    fn eat_bare_fraction(&mut self) -> bool
        ensures { Takes (then (byte 46) (some digit)) result self.old self.new }
    {
        let mut trial = Trial::begin(self);
        trial.accepted = trial.cursor.eat(b'.') && trial.cursor.skip_class1(Class::Digit);
        trial.accepted
    }

    fn eat_decimal(&mut self) -> bool
        ensures { Takes (else (then (some digit) (maybe fraction)) (then (byte 46) (some digit))) result self.old self.new }
    {
        if self.skip_class1(Class::Digit) {
            self.eat_fraction();
            true
        } else {
            self.eat_bare_fraction()
        }
    }

    // An optionally signed decimal number (e.g. `-1`, `2.5`, `.5`).
    pub fn scan_number(&mut self) -> Option<Span>
        ensures { Reads (spot numeric) result self.old self.new }
    {
        let start = self.place();
        let mut trial = Trial::begin(self);
        trial.cursor.eat_sign();
        if !trial.cursor.eat_decimal() {
            return None;
        }
        trial.accepted = true;
        Some(trial.cursor.span_from(start))
    }

    // The longest run of the class, of one byte at least.
    fn scan_class(&mut self, class: Class) -> Option<Span>
        ensures { Reads (spot (some (within class))) result self.old self.new }
    {
        let start = self.place();
        if !self.skip_class1(class) {
            return None;
        }
        Some(self.span_from(start))
    }

    pub fn parse_identifier(&mut self) -> Option<Span>
        ensures { Reads (spot naming) result self.old self.new }
    {
        self.scan_class(Class::Naming)
    }

    // A feature's name for `supports` queries.
    pub fn parse_feature_name(&mut self) -> Option<Span>
        ensures { Reads (spot feature) result self.old self.new }
    {
        self.scan_class(Class::Featured)
    }

    fn eat_alt(&mut self)
        ensures { Skips (maybe (spelled (bytes "alt-"))) self.old self.new }
    {
        let _alt = self.match_bytes(b"alt-");
    }

    pub fn parse_region(&mut self) -> Option<Span>
        ensures { Reads (spot region) result self.old self.new }
    {
        let start = self.place();
        let mut trial = Trial::begin(self);
        trial.cursor.eat_alt();
        if !trial.cursor.eat_class(Class::Letter) || !trial.cursor.eat_class(Class::Letter) {
            return None;
        }
        trial.accepted = true;
        Some(trial.cursor.span_from(start))
    }
}
