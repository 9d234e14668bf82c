// Texts as lines: the length, then the cells.
use std::{fmt, io};
use texts::cell::Fault;
use texts::text::Text;

// The cells of a text from one place up to another: a byte as itself where it can be printed, else by its number, and
// a bad cell by its place, its fault's number and its own place.
#[derive(Drop)]
struct Cells<'a, T: Text> {
    text: &'a T,
    start: usize,
    end: usize,
}

impl<T: Text> fmt::Display for Cells<'_, T> {
    fn fmt<W: fmt::Write>(&self, f: &mut fmt::Formatter<W>) -> fmt::Result {
        // By places, since a text answers for a place; one behind its end is shown too.
        for place in self.start..self.end {
            match self.text.cell(place) {
                Ok(Some(byte @ b' '..=b'~')) => write!(f, "{}", char::from(byte))?,
                Ok(Some(byte)) => write!(f, "({byte})")?,
                Ok(None) => write!(f, "(none)")?,
                Err(Fault { number, own }) => {
                    write!(f, "(bad at {place}: fault {number}, own place {own})")?
                }
            }
        }
        Ok(())
    }
}

// All cells of a text.
pub fn show<T: Text>(rt: &HostRuntime, name: &str, text: &T) -> io::Result<()> {
    let end = text.len();
    let cells = Cells {
        text,
        start: 0,
        end,
    };
    println!(rt; "{name}: {end} |{cells}|")
}

// The last two cells of a text, and what stands behind them.
pub fn show_end<T: Text>(rt: &HostRuntime, name: &str, text: &T) -> io::Result<()> {
    let n = text.len();
    let cells = Cells {
        text,
        start: n.saturating_sub(2),
        end: n + 1,
    };
    println!(rt; "{name}: {n} |..{cells}|")
}
