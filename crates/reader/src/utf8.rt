// Well-formed UTF-8 after Unicode's Table 3-7: a state and the next byte say what may follow.
ghost use Rattle.std.specs.Prelude.{◌≡◌, Some, None, MatchOption};
ghost use Rattle.reader.specs.Utf8.{step_of, ill_formed};
ghost use Rattle.texts.specs.Codes.{codes, byte_code};

use texts::code::byte_at;
use texts::text::Text;

// How many bytes a sequence still wants; after four leads the next byte is bound more narrowly.
#[derive(Clone, Copy, PartialEq)]
pub enum State {
    Start,
    Last,
    Two,
    Three,
    AfterE0,
    AfterED,
    AfterF0,
    AfterF4,
}

impl State {
    // Goes on to the state behind a byte; none where the byte may not stand here, and then the state stays.
    fn feed(&mut self, byte: Option<u8>) -> Option<()>
        ensures { MatchOption (step_of self.old (byte_code byte)) ((result ≡ None) × (self.new ≡ self.old)) (λ s. (result ≡ Some tt) × (self.new ≡ s)) }
    {
        *self = match (*self, byte?) {
            (State::Start, 0x00..=0x7F) => State::Start,
            (State::Start, 0xC2..=0xDF) => State::Last,
            (State::Start, 0xE0) => State::AfterE0,
            (State::Start, 0xED) => State::AfterED,
            (State::Start, 0xE1..=0xEF) => State::Two,
            (State::Start, 0xF0) => State::AfterF0,
            (State::Start, 0xF1..=0xF3) => State::Three,
            (State::Start, 0xF4) => State::AfterF4,
            (State::Last, 0x80..=0xBF) => State::Start,
            (State::Two, 0x80..=0xBF) => State::Last,
            (State::Three, 0x80..=0xBF) => State::Two,
            (State::AfterE0, 0xA0..=0xBF) => State::Last,
            (State::AfterED, 0x80..=0x9F) => State::Last,
            (State::AfterF0, 0x90..=0xBF) => State::Two,
            (State::AfterF4, 0x80..=0x8F) => State::Two,
            _ => return None,
        };
        Some(())
    }
}

// The place of the first byte of the first ill-formed sequence. A text is asked by place, and has no slice to go through.
pub fn first_ill_formed<T: Text>(text: &T) -> Option<usize>
    ensures { result ≡ ill_formed (codes (T.Text.cells text.now)) }
{
    let mut state = State::Start;
    let mut begun = 0;
    for here in 0..text.len() {
        if state.feed(byte_at(text, here)).is_none() {
            return Some(begun);
        }
        if state == State::Start {
            begun = here + 1;
        }
    }
    (state != State::Start).then_some(begun)
}
