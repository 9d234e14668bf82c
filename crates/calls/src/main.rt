// Makes a list of calls on a reader of a statement. The first line of the input is the statement; each later line is a
// call: `step`, `back`, `over` or `place`. Prints each answer beside its call, and then how many queries stand before
// the place. `#` begins a comment in the statement: the reader stands over a cover.
#![tactic(auto)]

use layers::cover::Cover;
use listing::{QueryLine, RefusalLine};
use replay::calls::{Answer, Call, Exchange};
use replay::replay::replay;
use std::io::{BufRead, BufReader};
use std::{fmt, io};
use texts::store::ByteStore;

// Not by `FromStr`: `Call` is another crate's, and a type around it would say no more than this function.
fn call_of(word: &str) -> Option<Call> {
    match word {
        "step" => Some(Call::Step),
        "back" => Some(Call::StepBack),
        "over" => Some(Call::StartOver),
        "place" => Some(Call::Place),
        _ => None,
    }
}

// An answer as a line.
#[derive(Clone, Copy)]
struct AnswerLine(Answer);

impl fmt::Display for AnswerLine {
    fn fmt<W: fmt::Write>(&self, f: &mut fmt::Formatter<W>) -> fmt::Result {
        match self.0 {
            Answer::Given(query) => write!(f, "{}", QueryLine(query)),
            Answer::End => write!(f, "end"),
            Answer::Refused(refusal) => write!(f, "{}", RefusalLine(refusal)),
            Answer::Moved => write!(f, "moved"),
            Answer::Anew => write!(f, "anew"),
            Answer::At(place) => write!(f, "at {place}"),
            Answer::Open => write!(f, "open"),
        }
    }
}

fn print_replay(rt: &HostRuntime, statement: &str, exchanges: &mut [Exchange]) -> io::Result<()> {
    let pile = Cover::new(ByteStore::new(statement.as_bytes()));
    match replay(&pile, exchanges) {
        Err(refusal) => println!(rt; "{}", RefusalLine(refusal)),
        Ok(k) => {
            for exchange in exchanges.iter() {
                println!(rt; "{}", AnswerLine(exchange.answer))?;
            }
            println!(rt; "{k} before the place")
        }
    }
}

fn main(rt: HostRuntime) -> io::Result<()> {
    let mut lines = BufReader::new(rt.alloc(), rt.stdin())?.lines(rt.alloc());
    let statement = match lines.next() {
        Some(line) => line?,
        None => String::new(rt.alloc()),
    };
    let mut exchanges = Vec::new(rt.alloc());
    for line in lines {
        if let Some(call) = call_of(line?.as_str()) {
            exchanges.push(Exchange {
                call,
                answer: Answer::Open,
            })?;
        }
    }
    print_replay(&rt, statement.as_str(), &mut exchanges)
}
