// Years: the signed year of `since`, and the year of a baseline.
ghost use Rattle.std.specs.Prelude.{◌≡◌, ℕ, true, false};
ghost use Rattle.grammar.specs.Classes.{digit};
ghost use Rattle.grammar.specs.Decimal.{signed_year, baseline_year, year_kind};
ghost use Rattle.grammar.specs.Form.{read, year, baseline};
ghost use Rattle.grammar.specs.Forms.{since_year};
ghost use Rattle.grammar.specs.Tokens.{some, maybe, byte};
ghost use Rattle.scanner.specs.Years.{year_held};
ghost use Rattle.scanner.specs.Position.{Skips, Reads};

use crate::cursor::Cursor;
use crate::number::Number;
use crate::trial::Trial;
use grammar::query::BaselineKind;
use texts::text::Text;

// The value, if 32 bits hold it.
impl Number for Option<u32> {
    ghost of_value = { year_held };

    fn zero() -> Option<u32> {
        Some(0)
    }

    fn more(self, digit: u8) -> Option<u32> {
        self?.checked_mul(10)?.checked_add(u32::from(digit))
    }
}

// The kind of a baseline year by its value and how many digits it has.
fn kind_of_year(year: Option<u32>, digits: usize) -> BaselineKind
    ensures { (v : ℕ) → year ≡ year_held v → result ≡ year_kind v digits }
{
    match (year, digits) {
        (None, _) => BaselineKind::InvalidYear,
        (Some(year), 4) => BaselineKind::Year(year),
        (Some(year), _) => BaselineKind::LegacyYear(year),
    }
}

impl<T: Text> Cursor<T> {
    // Digits as a signed year; the negation wraps.
    fn parse_year(&mut self, negative: bool) -> Option<i32>
        ensures { Reads (read {k = year} (some digit) (signed_year negative)) result self.old self.new }
    {
        let year = self.parse_u32()?.cast_signed();
        if negative {
            Some(year.wrapping_neg())
        } else {
            Some(year)
        }
    }

    fn eat_plus(&mut self)
        ensures { Skips (maybe (byte 43)) self.old self.new }
    {
        let _plus = self.eat(b'+');
    }

    pub fn parse_i32(&mut self) -> Option<i32>
        ensures { Reads since_year result self.old self.new }
    {
        let mut trial = Trial::begin(self);
        let negative = trial.cursor.eat(b'-');
        if !negative {
            trial.cursor.eat_plus();
        }
        let year = trial.cursor.parse_year(negative)?;
        trial.accepted = true;
        Some(year)
    }

    pub fn parse_baseline_year(&mut self) -> Option<BaselineKind>
        ensures { Reads (read {k = baseline} (some digit) baseline_year) result self.old self.new }
    {
        let start = self.place();
        let year = self.parse_number()?;
        Some(kind_of_year(year, self.place() - start))
    }
}
