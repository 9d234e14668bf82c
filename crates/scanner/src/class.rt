// Classes of codes.
ghost use Rattle.std.specs.Prelude.{◌≡◌};
ghost use Rattle.texts.specs.Codes.{byte_code};
ghost use Rattle.scanner.specs.Within.{within};

// A name for each class, matched in one place: a closure as class would bring its meaning into each scanner's contract.
#[derive(Clone, Copy)]
pub enum Class {
    Letter,
    Digit,
    Blank,
    Wordly,
    Naming,
    Featured,
    Numeral,
    Present,
}

// A byte of the class; what is no byte is in none.
pub fn is_in(class: Class, byte: Option<u8>) -> bool
    ensures { result ≡ within class (byte_code byte) }
{
    match (class, byte) {
        (_, None) => false,
        (Class::Letter, Some(b)) => b.is_ascii_alphabetic(),
        (Class::Digit, Some(b)) => b.is_ascii_digit(),
        (Class::Blank, Some(b)) => b == b' ' || b == b'\t',
        (Class::Wordly, Some(b)) => b.is_ascii_alphanumeric() || b == b'_',
        (Class::Naming, Some(b)) => b.is_ascii_alphabetic() || b == b'_',
        (Class::Featured, Some(b)) => b.is_ascii_alphanumeric() || b == b'-',
        (Class::Numeral, Some(b)) => b.is_ascii_digit() || b == b'.',
        (Class::Present, Some(_)) => true,
    }
}
