// A list of calls on one reader.
ghost use Rattle.std.specs.Prelude.{◌≡◌, ℕ, MatchResult};
ghost use Rattle.reader.specs.Standing.{Within};
ghost use Rattle.replay.specs.Runs.{Asked};
ghost use Rattle.replay.specs.Law.{Replayed, Unread};

use crate::calls::{Answer, Call, Exchange};
use reader::reader::Reader;
use reader::refusal::Refusal;
use texts::text::Text;

// One call. A `match`, since a call is the caller's data, which the law goes through.
#[tactic(auto, using(crate::proofs::Made::asked_call))]
pub fn ask<T: Text>(reader: &mut Reader<T>, call: Call) -> Answer
    ensures text { reader.new.text ≡ reader.old.text }
    ensures same { reader.new.codes ≡ reader.old.codes }
    ensures asked { Asked reader.old.codes reader.old.k reader.old.place call result reader.new.k reader.new.place }
    ensures before { Within reader.old.k reader.old.place }
    ensures within { Within reader.new.k reader.new.place }
{
    match call {
        Call::Step => Answer::from(reader.step()),
        Call::StepBack => Answer::from(reader.step_back()),
        Call::StartOver => {
            reader.start_over();
            Answer::Anew
        }
        Call::Place => Answer::At(reader.place()),
    }
}

// Starts a reader over a text, makes every call in order, and puts each answer beside its call.
// Answers how many queries then stand before the place. Where start refuses, every exchange stays as it was.
pub fn replay<T: Text>(text: &T, exchanges: &mut [Exchange]) -> Result<usize, Refusal>
    ensures { MatchResult result (Replayed (T.Text.cells text.now) exchanges.old exchanges.new) (Unread (T.Text.cells text.now) exchanges.old exchanges.new) }
{
    let mut reader = Reader::start(text)?;
    for exchange in exchanges.iter_mut() {
        exchange.answer = ask(&mut reader, exchange.call);
    }
    Ok(reader.count())
}
