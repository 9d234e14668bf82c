// Numbers: digits as they are read, by what a type makes of their value.
ghost use Rattle.std.specs.Prelude.{◌≡◌, ℕ, ◌+◌, ◌*◌, ◌%◌, ◌<◌, ◌≤◌, min, IfSome};
ghost use Rattle.grammar.specs.Classes.{digit};
ghost use Rattle.grammar.specs.Decimal.{value};
ghost use Rattle.grammar.specs.Form.{between};
ghost use Rattle.grammar.specs.Forms.{counted, calendared, one_digit, two_digits, four_digits};
ghost use Rattle.grammar.specs.Tokens.{any};
ghost use Rattle.scanner.specs.Position.{Skips, Reads, ReadsDigits};

use crate::class::Class;
use crate::cursor::Cursor;
use crate::trial::Trial;
use texts::text::Text;

// A type that digits are read as: some function of their value, kept digit by digit.
pub trait Number {
    ghost of_value: { ℕ → Self };

    fn zero() -> Self
        ensures { result ≡ of_value 0 };

    // One digit more.
    fn more(self, digit: u8) -> Self
        ensures { (v : ℕ) → self ≡ of_value v → result ≡ of_value (v * 10 + digit) };
}

// The value modulo 65,536.
impl Number for u16 {
    ghost of_value = { λ v. v % 65536 };

    fn zero() -> u16 {
        0
    }

    fn more(self, digit: u8) -> u16 {
        self.wrapping_mul(10).wrapping_add(u16::from(digit))
    }
}

// The value modulo 4,294,967,296.
impl Number for u32 {
    ghost of_value = { λ v. v % 4294967296 };

    fn zero() -> u32 {
        0
    }

    fn more(self, digit: u8) -> u32 {
        self.wrapping_mul(10).wrapping_add(u32::from(digit))
    }
}

impl<T: Text> Cursor<T> {
    // One digit.
    fn parse_digit(&mut self) -> Option<u8>
        ensures value { Reads one_digit result self.old self.new }
        ensures small { IfSome result (λ d. d < 10) }
    {
        let digit = self.byte()?;
        if !self.eat_class(Class::Digit) {
            return None;
        }
        Some(digit - b'0')
    }

    // A run of digits.
    pub fn digits<N: Number>(&mut self) -> N
        ensures took { Skips (any digit) self.old self.new }
        ensures value { result ≡ N.of_value (value (between self.old.text self.old.place self.new.place)) }
    {
        let mut n = N::zero();
        while let Some(digit) = self.parse_digit() {
            n = n.more(digit);
        }
        n
    }

    // A run of digits, of one at least.
    pub fn parse_number<N: Number>(&mut self) -> Option<N>
        ensures { ReadsDigits N.of_value result self.old self.new }
    {
        if !self.peek(Class::Digit) {
            return None;
        }
        Some(self.digits())
    }

    pub fn parse_u16(&mut self) -> Option<u16>
        ensures { Reads counted result self.old self.new }
    {
        self.parse_number()
    }

    pub fn parse_u32(&mut self) -> Option<u32>
        ensures { Reads calendared result self.old self.new }
    {
        self.parse_number()
    }

    // Exactly two digits.
    pub fn parse_two_digits(&mut self) -> Option<u32>
        ensures value { Reads two_digits result self.old self.new }
        ensures small { IfSome result (λ d. d < 100) }
    {
        let mut trial = Trial::begin(self);
        let tens = trial.cursor.parse_digit()?;
        let ones = trial.cursor.parse_digit()?;
        trial.accepted = true;
        Some(u32::from(tens * 10 + ones))
    }

    // Exactly four digits.
    pub fn parse_four_digits(&mut self) -> Option<u32>
        ensures { Reads four_digits result self.old self.new }
    {
        let mut trial = Trial::begin(self);
        let hundreds = trial.cursor.parse_two_digits()?;
        let ones = trial.cursor.parse_two_digits()?;
        trial.accepted = true;
        Some(hundreds * 100 + ones)
    }
}
