// How a reading ended, as numbers that C reads.
ghost use Rattle.std.specs.Prelude.{◌≡◌};
ghost use Rattle.exports.specs.Put.{put_slot};
ghost use Rattle.words.specs.Outcome.{outcome_of, count_of};

use exports::put::put_slot;
use records::refusal::refusal_words;
use whole::refusal::WholeRefusal;

// How a reading ended, as five numbers. A closure that makes an array would need a contract, so that this is a `match`.
fn outcome_words(answer: Result<usize, WholeRefusal>) -> [u64; 5]
    ensures { result ≡ outcome_of answer }
{
    match answer {
        Ok(n) => [0, 0, 0, 0, n as u64],
        Err(refusal) => refusal_words(refusal),
    }
}

// Writes the five numbers, where there is room for them. Answers how many queries there are, and 0 at a refusal.
pub fn report(answer: Result<usize, WholeRefusal>, outcome: &mut [u64]) -> u64
    ensures count { result ≡ count_of answer }
    ensures told { outcome.new ≡ put_slot outcome.old 0 (outcome_of answer) }
{
    put_slot(outcome, 0, &outcome_words(answer));
    answer.map_or(0, |n| n as u64)
}
