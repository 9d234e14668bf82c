// A cursor: a text, and the place in it from which scanners read on.
ghost use Rattle.std.specs.Prelude.{◌≡◌, ℕ, ◌+◌, ◌<◌, length};
ghost use Rattle.texts.specs.Codes.{codes, byte_code};
ghost use Rattle.grammar.specs.Classes.{folds};
ghost use Rattle.grammar.specs.Rule.{one};
ghost use Rattle.grammar.specs.Tokens.{byte};
ghost use Rattle.scanner.specs.Position.{here, Takes};
ghost use Rattle.scanner.specs.Within.{within};

use crate::class::{Class, is_in};
use grammar::query::Span;
use std::marker::Model;
use texts::code::byte_at;
use texts::text::Text;

#[derive(Drop)]
pub struct Cursor<T: Text> {
    text: T,
    place: usize,
}

impl<T: Text> Model for Cursor<T> {
    ghost use Rattle.texts.specs.Codes.{codes};
    ghost use Rattle.scanner.specs.Position.{Position, position_code};

    ghost Value = { Position };

    ghost coded = { position_code };

    ghost view = { λ c. record { text = codes (T.Text.cells c.text); place = c.place } };
}

impl<T: Text> Cursor<T> {
    pub fn at(text: T, place: usize) -> Cursor<T>
        ensures text { result.text ≡ codes (T.Text.cells text) }
        ensures place { result.place ≡ place }
    {
        Cursor { text, place }
    }

    pub fn place(&self) -> usize
        ensures { result ≡ self.now.place }
    {
        self.place
    }

    // Another cursor at the same place, to look ahead with.
    pub fn ahead(&self) -> Cursor<&T>
        ensures { result ≡ self.now }
    {
        Cursor {
            text: &self.text,
            place: self.place,
        }
    }

    // To another place of the text.
    pub(crate) fn go_to(&mut self, place: usize)
        ensures text { self.new.text ≡ self.old.text }
        ensures place { self.new.place ≡ place }
    {
        self.place = place;
    }

    // Past the byte here.
    pub(crate) fn advance(&mut self)
        requires { self.old.place < length self.old.text }
        ensures text { self.new.text ≡ self.old.text }
        ensures place { self.new.place ≡ self.old.place + 1 }
    {
        self.place += 1;
    }

    // The part of the text from a place up to here.
    pub fn span_from(&self, start: usize) -> Span
        ensures start { result.start ≡ start }
        ensures end { result.end ≡ self.now.place }
    {
        Span {
            start,
            end: self.place,
        }
    }

    // The byte here; none past the end, or at a bad cell.
    pub fn byte(&self) -> Option<u8>
        ensures { byte_code result ≡ here self.now }
    {
        byte_at(&self.text, self.place)
    }

    // Whether a byte of the class is next.
    pub fn peek(&self, class: Class) -> bool
        ensures { result ≡ within class (here self.now) }
    {
        is_in(class, self.byte())
    }

    // One byte of the class. Three functions take one byte: each clause names its rule, where one function over a
    // closure would speak of the closure's calls.
    pub fn eat_class(&mut self, class: Class) -> bool
        ensures { Takes (one (within class)) result self.old self.new }
    {
        let found = self.peek(class);
        if found {
            self.place += 1;
        }
        found
    }

    // This byte.
    pub fn eat(&mut self, b: u8) -> bool
        ensures { Takes (byte b) result self.old self.new }
    {
        let found = self.byte() == Some(b);
        if found {
            self.place += 1;
        }
        found
    }

    // This byte, a letter in either case.
    pub(crate) fn eat_folded(&mut self, b: u8) -> bool
        ensures { Takes (one (folds b)) result self.old self.new }
    {
        let found = self.byte().map(|found| found.to_ascii_lowercase()) == Some(b);
        if found {
            self.place += 1;
        }
        found
    }
}
