// Stepping through a text: every query that is given, as numbers.
ghost use Rattle.std.specs.Prelude.{◌≡◌};
ghost use Rattle.words.specs.Put.{put_before};
ghost use Rattle.words.specs.Steps.{Writes, ReadText};

use crate::put::report;
use exports::layout::words_of;
use exports::put::put_slot;
use grammar::query::SingleQuery;
use records::separator::separator_words;
use texts::text::Text;
use whole::reading::Separator;
use whole::refusal::WholeRefusal;
use whole::walk::{Sink, walk_text};

// The separator before query n, from the end of the raw before; the first query has none.
fn put_separator(separators: &mut [u64], n: usize, end: usize, start: usize)
    ensures { separators.new ≡ put_before separators.old n end start }
{
    if n > 0 {
        put_slot(
            separators,
            n - 1,
            &separator_words(Separator {
                start: end,
                end: start,
            }),
        );
    }
}

// Slices that take queries as numbers, while there is room for whole records. C lends two, so that the functions of
// this crate take two: a struct of both would have to say in each contract that its references stay.
#[derive(Drop)]
pub(crate) struct Slices<'q, 's> {
    pub(crate) queries: &'q mut [u64],
    pub(crate) separators: &'s mut [u64],
}

impl Sink for Slices<'_, '_> {
    ghost takes = { Writes };

    fn take(&mut self, n: usize, end: usize, query: SingleQuery) {
        put_slot(self.queries, n, &words_of(query));
        put_separator(self.separators, n, end, query.raw.start);
    }
}

// Every query that stepping through a text gives, also before a refusal, and how it ended.
// Answers how many were given.
pub fn read_text<T: Text>(
    text: &T,
    queries: &mut [u64],
    separators: &mut [u64],
    outcome: &mut [u64],
) -> usize
    ensures { ReadText (T.Text.cells text.now) result queries.old queries.new separators.old separators.new outcome.old outcome.new }
{
    let mut slices = Slices {
        queries,
        separators,
    };
    let walk = walk_text(text, &mut slices);
    report(walk.answer().map_err(WholeRefusal::from), outcome);
    walk.given
}
