// One query of a text, by its number.
ghost use Rattle.std.specs.Prelude.{◌≡◌, Err, MatchResult};
ghost use Rattle.texts.specs.Codes.{codes};
ghost use Rattle.texts.specs.Trim.{trimmed};
ghost use Rattle.reader.specs.Start.{start_refusal};
ghost use Rattle.whole.specs.Finds.{Finds, found_by};
ghost use Rattle.whole.specs.Whole.{Nth};

use crate::walk::{Sink, walk_text};
use grammar::query::SingleQuery;
use reader::refusal::Refusal;
use texts::text::Text;

// Keeps query k and no other.
#[derive(Clone, Copy)]
pub struct Finder {
    k: usize,
    found: Option<SingleQuery>,
}

impl Sink for Finder {
    ghost takes = { Finds };

    fn take(&mut self, n: usize, _: usize, query: SingleQuery) {
        if n == self.k {
            self.found = Some(query);
        }
    }
}

fn found_by(
    found: Option<SingleQuery>,
    refusal: Option<Refusal>,
) -> Result<Option<SingleQuery>, Refusal>
    ensures { result ≡ found_by found refusal }
{
    match (found, refusal) {
        (None, Some(refusal)) => Err(refusal),
        _ => Ok(found),
    }
}

// Query k as stepping from the start comes to it, or none where "end" comes before it; a refusal before it is passed on.
pub fn nth_query<T: Text>(text: &T, k: usize) -> Result<Option<SingleQuery>, Refusal>
    ensures { MatchResult (start_refusal (T.Text.cells text.now)) (λ _. Nth (codes (trimmed (T.Text.cells text.now))) k result) (λ e. result ≡ Err e) }
{
    let mut finder = Finder { k, found: None };
    let walk = walk_text(text, &mut finder);
    found_by(finder.found, walk.refusal)
}
