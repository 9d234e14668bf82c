// What may be asked of a reader, and what it answers.
ghost use Rattle.std.specs.Prelude.{◌≡◌};
ghost use Rattle.replay.specs.Calls.{step_told, back_told};

use grammar::query::SingleQuery;
use reader::refusal::Refusal;

#[derive(Clone, Copy, Debug, PartialEq)]
pub enum Call {
    Step,
    StepBack,
    StartOver,
    Place,
}

// One type for every call, so that one list holds the answers of all.
#[derive(Clone, Copy, Debug, PartialEq)]
pub enum Answer {
    // The next query.
    Given(SingleQuery),
    // There is no query left.
    End,
    Refused(Refusal),
    // One query back.
    Moved,
    // Before the first query again.
    Anew,
    // The place.
    At(usize),
    // Not yet asked.
    Open,
}

// What a step gave.
impl From<Result<Option<SingleQuery>, Refusal>> for Answer {
    ghost from_gives = { λ given answer. answer ≡ step_told given };

    fn from(given: Result<Option<SingleQuery>, Refusal>) -> Answer {
        match given {
            Ok(Some(query)) => Answer::Given(query),
            Ok(None) => Answer::End,
            Err(refusal) => Answer::Refused(refusal),
        }
    }
}

// What a step back gave.
impl From<Result<(), Refusal>> for Answer {
    ghost from_gives = { λ given answer. answer ≡ back_told given };

    fn from(given: Result<(), Refusal>) -> Answer {
        match given {
            Ok(()) => Answer::Moved,
            Err(refusal) => Answer::Refused(refusal),
        }
    }
}

// A call with its answer beside it.
#[derive(Clone, Copy, Debug, PartialEq)]
pub struct Exchange {
    pub call: Call,
    pub answer: Answer,
}
