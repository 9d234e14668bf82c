// Calls on a reader of a small text.
use crate::calls::{Answer, Call, Exchange};
use crate::replay::replay;
use reader::refusal::Refusal;
use std::test::Fail;
use texts::store::ByteStore;

fn asking(call: Call) -> Exchange {
    Exchange {
        call,
        answer: Answer::Open,
    }
}

// Where the raw of a query that was given ends.
fn given_end(answer: Answer) -> Option<usize> {
    match answer {
        Answer::Given(query) => Some(query.raw.end),
        _ => None,
    }
}

#[test]
fn steps_and_back(rt: HostRuntime) -> Result<(), Fail> {
    let text = ByteStore::new(b" ie 8, not dead ");
    let mut exchanges = [
        asking(Call::StepBack),
        asking(Call::Step),
        asking(Call::Step),
        asking(Call::Step),
        asking(Call::StepBack),
        asking(Call::Place),
        asking(Call::StartOver),
    ];
    let k = replay(&text, &mut exchanges)?;
    assert_eq!(rt; k, 0);
    assert_eq!(rt; exchanges[0].answer, Answer::Refused(Refusal::AtStart));
    assert_eq!(rt; given_end(exchanges[1].answer), Some(4));
    assert_eq!(rt; given_end(exchanges[2].answer), Some(14));
    assert_eq!(rt; exchanges[3].answer, Answer::End);
    assert_eq!(rt; exchanges[4].answer, Answer::Moved);
    assert_eq!(rt; exchanges[5].answer, Answer::At(4));
    assert_eq!(rt; exchanges[6].answer, Answer::Anew);
    Ok(())
}
