// Stepping through a text from its start up to its end or a refusal, with something that takes each query.
ghost use Rattle.std.specs.Prelude.{◌≡◌, ℕ, MatchResult};
ghost use Rattle.std.specs.Result.{result_err};
ghost use Rattle.texts.specs.Codes as cell;
ghost use Rattle.texts.specs.Trim.{trimmed};
ghost use Rattle.grammar.specs.declared.query.SingleQuery.{SingleQuery as Query};
ghost use Rattle.reader.specs.Standing.{Within};
ghost use Rattle.reader.specs.Start.{start_refusal};
ghost use Rattle.whole.specs.Walks.{answer_of, Walks, Unstarted};

use grammar::query::SingleQuery;
use reader::reader::Reader;
use reader::refusal::Refusal;
use texts::text::Text;

// What takes the queries of a text. Query n follows a raw that ends at `end`; for the first, that is 0.
pub trait Sink {
    // What taking a query makes of it.
    ghost takes: { Self → ℕ → ℕ → Query → Self → Type 0 };

    fn take(&mut self, n: usize, end: usize, query: SingleQuery)
        ensures { takes self.old n end query self.new };
}

// How many queries were given, and the refusal that stopped the steps, if it was not "end". A `Result` would have to
// leave out one of the two at a refusal.
#[derive(Clone, Copy, Debug, PartialEq)]
pub struct Walk {
    pub given: usize,
    pub refusal: Option<Refusal>,
}

impl Walk {
    pub fn answer(self) -> Result<usize, Refusal>
        ensures { result ≡ answer_of self }
    {
        self.refusal.map_or(Ok(self.given), Err)
    }
}

// Hands every query from the start on to the sink, up to the end or a refusal.
fn hand_over<T: Text, S: Sink>(reader: &mut Reader<T>, sink: &mut S) -> Result<(), Refusal>
    ensures text { reader.new.text ≡ reader.old.text }
    ensures same { reader.new.codes ≡ reader.old.codes }
    ensures before { Within reader.old.k reader.old.place }
    ensures walked { Walks S.Sink.takes reader.old.codes (record { given = reader.new.k; refusal = result_err result }) sink.old sink.new }
{
    reader.start_over();
    loop {
        let n = reader.count();
        let end = reader.place();
        match reader.step()? {
            Some(query) => sink.take(n, end, query),
            None => return Ok(()),
        }
    }
}

// Steps through a reader's text from its start, and hands every query that is given to the sink.
// The reader then stands at the start.
pub fn walk_through<T: Text, S: Sink>(reader: &mut Reader<T>, sink: &mut S) -> Walk
    ensures text { reader.new.text ≡ reader.old.text }
    ensures same { reader.new.codes ≡ reader.old.codes }
    ensures count { reader.new.k ≡ 0 }
    ensures after { reader.new.place ≡ 0 }
    ensures before { Within reader.old.k reader.old.place }
    ensures walked { Walks S.Sink.takes reader.old.codes result sink.old sink.new }
{
    let refusal = hand_over(reader, sink).err();
    let given = reader.count();
    reader.start_over();
    Walk { given, refusal }
}

// The same of a text. Where a reading can't start on it, no query is given.
pub fn walk_text<T: Text, S: Sink>(text: &T, sink: &mut S) -> Walk
    ensures { MatchResult (start_refusal (T.Text.cells text.now)) (λ _. Walks S.Sink.takes (cell.codes (trimmed (T.Text.cells text.now))) result sink.old sink.new) (λ e. Unstarted e result sink.old sink.new) }
{
    match Reader::start(text) {
        Ok(mut reader) => walk_through(&mut reader, sink),
        Err(refusal) => Walk {
            given: 0,
            refusal: Some(refusal),
        },
    }
}
