// For programs: the queries of a text as lines on standard output. A contract cannot say what is printed; it says the
// text of each line, and that the rest is safe and ends.
#![tactic(auto)]

ghost use Rattle.std.specs.Prelude.{Some};
ghost use Rattle.listing.specs.Lines.{query_line, refusal_line};

use grammar::query::SingleQuery;
use reader::reader::Reader;
use reader::refusal::Refusal;
use std::{fmt, io};
use texts::text::Text;

// A query as a line: raw start, raw end, negated, is_and and the name of the form.
#[derive(Clone, Copy)]
pub struct QueryLine(pub SingleQuery);

impl fmt::Display for QueryLine {
    ghost output = { λ line. Some (query_line line.0) };

    fn fmt<W: fmt::Write>(&self, f: &mut fmt::Formatter<W>) -> fmt::Result {
        let start = self.0.raw.start;
        let end = self.0.raw.end;
        let negated = u8::from(self.0.negated);
        let is_and = u8::from(self.0.is_and);
        let name = self.0.atom.name();
        write!(f, "{start} {end} {negated} {is_and} {name}")
    }
}

// A refusal as a line: its number and its place.
#[derive(Clone, Copy)]
pub struct RefusalLine(pub Refusal);

impl fmt::Display for RefusalLine {
    ghost output = { λ line. Some (refusal_line line.0) };

    fn fmt<W: fmt::Write>(&self, f: &mut fmt::Formatter<W>) -> fmt::Result {
        let number = self.0.number();
        let place = self.0.place();
        write!(f, "refused {number} {place}")
    }
}

// A line for each query that is left, then `ok` and how many stand before the end, or the refusal.
fn print_steps<T: Text>(rt: &HostRuntime, reader: &mut Reader<T>) -> io::Result<()> {
    loop {
        match reader.step() {
            Ok(Some(query)) => println!(rt; "{}", QueryLine(query))?,
            Ok(None) => return println!(rt; "ok {}", reader.count()),
            Err(refusal) => return println!(rt; "{}", RefusalLine(refusal)),
        }
    }
}

// A line for each query of a text, then `ok` and how many, or `refused`, number and place.
pub fn print_reading<T: Text>(rt: &HostRuntime, text: &T) -> io::Result<()> {
    match Reader::start(text) {
        Ok(mut reader) => print_steps(rt, &mut reader),
        Err(refusal) => println!(rt; "{}", RefusalLine(refusal)),
    }
}
