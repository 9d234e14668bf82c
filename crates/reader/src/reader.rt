// The reader: it stands behind k queries of the trim of a text.
ghost use Rattle.std.specs.Prelude.{◌≡◌, ℕ, ◌-◌, Ok, Err, MatchResult};
ghost use Rattle.texts.specs.Codes as cell;
ghost use Rattle.texts.specs.Trim.{trimmed};
ghost use Rattle.reader.specs.Standing.{Within};
ghost use Rattle.reader.specs.Start.{start_refusal};
ghost use Rattle.reader.specs.Steps.{stepped, count_after, place_after, backed, place_back};

use crate::refusal::Refusal;
use crate::start::accepts;
use crate::step::{next_query, place_of};
use grammar::query::SingleQuery;
use std::marker::Model;
use texts::text::Text;
use texts::trim::Trim;

#[derive(Drop)]
pub struct Reader<'a, T: Text> {
    text: Trim<&'a T>,
    k: usize,
    place: usize,
}

impl<'a, T: Text> Model for Reader<'a, T> {
    ghost use Rattle.reader.specs.Standing.{Standing, shown, Within};

    ghost Value = { Standing };

    ghost view = { λ r. record { text = record { cells = T.Text.cells r.text.inner.now; start = r.text.start; end = r.text.end }; codes = shown r.text.start r.text.end (T.Text.cells r.text.inner.now); k = r.k; place = r.place } };

    ghost invariant = { λ r. Within r.k r.place };
}

impl<'a, T: Text> Reader<'a, T> {
    // Refuses a bad cell, then ill-formed UTF-8; else stands before the first query.
    pub fn start(text: &'a T) -> Result<Reader<'a, T>, Refusal>
        ensures { MatchResult result (λ s. (start_refusal (T.Text.cells text.now) ≡ Ok tt) × (s.codes ≡ cell.codes (trimmed (T.Text.cells text.now))) × (s.k ≡ 0) × (s.place ≡ 0)) (λ e. start_refusal (T.Text.cells text.now) ≡ Err e) }
    {
        accepts(text)?;
        Ok(Reader {
            text: Trim::new(text),
            k: 0,
            place: 0,
        })
    }

    // The next query, or none behind the last; a refusal leaves the reader as it was.
    pub fn step(&mut self) -> Result<Option<SingleQuery>, Refusal>
        ensures text { self.new.text ≡ self.old.text }
        ensures same { self.new.codes ≡ self.old.codes }
        ensures value { result ≡ stepped self.old.codes self.old.k self.old.place }
        ensures count { self.new.k ≡ count_after result self.old.k }
        ensures after { self.new.place ≡ place_after result self.old.place }
        ensures before { Within self.old.k self.old.place }
        ensures within { Within self.new.k self.new.place }
    {
        if self.place >= self.text.len() {
            return Ok(None);
        }
        let found = next_query(&self.text, self.k, self.place);
        let query = found.map_err(|place| Refusal::NoReading { place })?;
        self.k += 1;
        self.place = query.raw.end;
        Ok(Some(query))
    }

    // One query back, found from the start again; at the start a refusal, which leaves the reader as it was.
    pub fn step_back(&mut self) -> Result<(), Refusal>
        ensures text { self.new.text ≡ self.old.text }
        ensures same { self.new.codes ≡ self.old.codes }
        ensures value { result ≡ backed self.old.k }
        ensures count { self.new.k ≡ self.old.k - 1 }
        ensures after { self.new.place ≡ place_back self.old.codes self.old.k self.old.place }
        ensures before { Within self.old.k self.old.place }
        ensures within { Within self.new.k self.new.place }
    {
        if self.k == 0 {
            return Err(Refusal::AtStart);
        }
        let k = self.k - 1;
        // No raw is empty, so that the end of k raws is k at least, as the reader's bounds say.
        let place = place_of(&self.text, k).max(k);
        self.k = k;
        self.place = place;
        Ok(())
    }

    // Stands before the first query again.
    pub fn start_over(&mut self)
        ensures text { self.new.text ≡ self.old.text }
        ensures same { self.new.codes ≡ self.old.codes }
        ensures count { self.new.k ≡ 0 }
        ensures after { self.new.place ≡ 0 }
        ensures before { Within self.old.k self.old.place }
    {
        self.k = 0;
        self.place = 0;
    }

    // How many queries stand before the place.
    pub fn count(&self) -> usize
        ensures value { result ≡ self.now.k }
        ensures within { Within self.now.k self.now.place }
    {
        self.k
    }

    // The end of the last raw given, or 0.
    pub fn place(&self) -> usize
        ensures value { result ≡ self.now.place }
        ensures within { Within self.now.k self.now.place }
    {
        self.place
    }
}
