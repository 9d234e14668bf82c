// Scanners of runs and of words.
ghost use Rattle.std.specs.Prelude.{◌≡◌, ℕ};
ghost use Rattle.grammar.specs.Classes.{folds};
ghost use Rattle.grammar.specs.Rule.{one, then};
ghost use Rattle.grammar.specs.Tokens.{any, some, blanks, spelled, word, plural, maybe};
ghost use Rattle.scanner.specs.Position.{Takes, Tries, Skips};
ghost use Rattle.scanner.specs.Within.{within};

use crate::class::Class;
use crate::cursor::Cursor;
use crate::trial::Trial;
use texts::text::Text;

impl<T: Text> Cursor<T> {
    // The longest run of the class.
    pub fn skip_class(&mut self, class: Class)
        ensures { Skips (any (within class)) self.old self.new }
    {
        while self.eat_class(class) {}
    }

    // The longest run of the class, of one byte at least.
    pub fn skip_class1(&mut self, class: Class) -> bool
        ensures { Takes (some (within class)) result self.old self.new }
    {
        let found = self.eat_class(class);
        if found {
            self.skip_class(class);
        }
        found
    }

    // These bytes, letters in either case; where one is missing the place is left wherever it is.
    fn eat_each(&mut self, bytes: &[u8]) -> bool
        ensures { Tries (spelled bytes.now) result self.old self.new }
    {
        for b in bytes {
            if !self.eat_folded(*b) {
                return false;
            }
        }
        true
    }

    // These bytes, letters in either case.
    pub fn match_bytes(&mut self, bytes: &[u8]) -> bool
        ensures { Takes (spelled bytes.now) result self.old self.new }
    {
        let mut trial = Trial::begin(self);
        trial.accepted = trial.cursor.eat_each(bytes);
        trial.accepted
    }

    // A word: no letter, digit or `_` goes on with it.
    pub fn match_keyword(&mut self, keyword: &[u8]) -> bool
        ensures { Takes (word keyword.now) result self.old self.new }
    {
        let mut trial = Trial::begin(self);
        trial.accepted = trial.cursor.match_bytes(keyword) && !trial.cursor.peek(Class::Wordly);
        trial.accepted
    }

    // One more `s`, if there.
    fn eat_plural(&mut self)
        ensures { Skips (maybe (one (folds 115))) self.old self.new }
    {
        let _s = self.eat_folded(b's');
    }

    // A word with an optional trailing `s` (e.g. `version`, `versions`).
    pub fn match_plural_keyword(&mut self, keyword: &[u8]) -> bool
        ensures { Takes (plural keyword.now) result self.old self.new }
    {
        let mut trial = Trial::begin(self);
        if !trial.cursor.match_bytes(keyword) {
            return false;
        }
        trial.cursor.eat_plural();
        trial.accepted = !trial.cursor.peek(Class::Wordly);
        trial.accepted
    }
}
