// The checks that come before any reading.
ghost use Rattle.std.specs.Prelude.{◌≡◌};
ghost use Rattle.reader.specs.Start.{bad_refusal, start_refusal};

use crate::refusal::Refusal;
use crate::utf8::first_ill_formed;
use texts::text::Text;

// Refuses the lowest bad cell. A text is asked by place, and has no slice to go through.
#[tactic(auto, using(crate::proofs::BadCells::good_more, crate::proofs::BadCells::bad_stop))]
fn lowest_bad_cell<T: Text>(text: &T) -> Result<(), Refusal>
    ensures { result ≡ bad_refusal (T.Text.cells text.now) }
{
    for place in 0..text.len() {
        text.cell(place)
            .map_err(|fault| Refusal::BadCell { place, fault })?;
    }
    Ok(())
}

// Refuses a text that no reading can start on.
pub fn accepts<T: Text>(text: &T) -> Result<(), Refusal>
    ensures { result ≡ start_refusal (T.Text.cells text.now) }
{
    lowest_bad_cell(text)?;
    first_ill_formed(text).map_or(Ok(()), |place| Err(Refusal::IllFormed { place }))
}
