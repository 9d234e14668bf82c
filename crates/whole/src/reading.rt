// The records of a reading in slots that the caller lends. The query record is `grammar::query::SingleQuery`.
ghost use Rattle.std.specs.Prelude.{◌≡◌};
ghost use Rattle.whole.specs.Takes.{Puts};

use crate::list::List;
use crate::walk::Sink;
use grammar::query::SingleQuery;

// What stands between two queries, by its two places in the trimmed text.
#[derive(Clone, Copy, Debug, PartialEq)]
pub struct Separator {
    pub start: usize,
    pub end: usize,
}

// A list of queries and a list of the separators between them.
#[derive(Drop)]
pub struct Reading<'q, 's> {
    pub queries: List<'q, SingleQuery>,
    pub separators: List<'s, Separator>,
}

impl<'q, 's> Reading<'q, 's> {
    // No record yet; the slots stay as they are.
    pub fn new(queries: &'q mut [SingleQuery], separators: &'s mut [Separator]) -> Reading<'q, 's>
        ensures query_reference { result.queries.slots.ghost_name ≡ queries.entry.ghost_name }
        ensures no_query { result.queries.len ≡ 0 }
        ensures query_slots { result.queries.slots.now ≡ queries.old }
        ensures separator_reference { result.separators.slots.ghost_name ≡ separators.entry.ghost_name }
        ensures no_separator { result.separators.len ≡ 0 }
        ensures separator_slots { result.separators.slots.now ≡ separators.old }
    {
        Reading {
            queries: List::new(queries),
            separators: List::new(separators),
        }
    }
}

impl Sink for Reading<'_, '_> {
    ghost takes = { Puts };

    fn take(&mut self, n: usize, end: usize, query: SingleQuery) {
        // What no slot is left for is not kept.
        let _ = self.queries.push(query);
        if n > 0 {
            let _ = self.separators.push(Separator {
                start: end,
                end: query.raw.start,
            });
        }
    }
}
