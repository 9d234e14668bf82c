// A separator as two numbers.
ghost use Rattle.std.specs.Prelude.{◌≡◌};
ghost use Rattle.records.specs.Layout.{places_of};

use whole::reading::Separator;

pub fn separator_words(separator: Separator) -> [u64; 2]
    ensures { result ≡ places_of separator }
{
    [separator.start as u64, separator.end as u64]
}
