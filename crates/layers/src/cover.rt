// The cover: a text whose comments and ends of lines are shown as spaces.
ghost use Rattle.std.specs.Prelude.{◌≡◌, ℕ, ◌<◌, ◌≤◌, Bool, false, List, length, slice_index_or};
ghost use Rattle.texts.specs.declared.cell.Cell.{Cell};
ghost use Rattle.texts.specs.Cells.{answer};
ghost use Rattle.texts.specs.Codes.{codes};
ghost use Rattle.layers.specs.Covers.{shown, goes_on, comment_at, shown_by, shown_by_short, Covering};
ghost use Rattle.layers.specs.Marks.{marked};

use crate::marks::Marks;
use texts::cell::Fault;
use texts::code::byte_at;
use texts::text::Text;

// A byte as it is shown, in a comment or not.
fn shown_byte(inside: bool, byte: u8) -> u8
    ensures { result ≡ shown inside byte }
{
    if inside || byte == b'#' || byte == b'\n' || byte == b'\r' {
        b' '
    } else {
        byte
    }
}

// Whether a comment goes on behind a byte: a line feed ends it, and a `#` begins one.
fn goes_on(inside: bool, byte: u8) -> bool
    ensures { result ≡ goes_on inside byte }
{
    byte != b'\n' && (inside || byte == b'#')
}

// The same behind the cell at a place: a bad one neither begins nor ends a comment.
fn comment_behind<T: Text>(text: &T, place: usize, inside: bool) -> bool
    ensures { result ≡ goes_on inside (slice_index_or (codes (T.Text.cells text.now)) place 256) }
{
    byte_at(text, place).map_or(inside, |byte| goes_on(inside, byte))
}

// The places in comments, behind the `#` that begins each. A text is asked by place, and has no slice to go through.
fn comments_of<T: Text>(text: &T) -> Marks
    ensures { (q : ℕ) → q < length (T.Text.cells text.now) → marked result.words q ≡ comment_at false (T.Text.cells text.now) q }
{
    let mut comments = Marks::none();
    let mut inside = false;
    for place in 0..text.len() {
        comments.add_if(place, inside);
        inside = comment_behind(text, place, inside);
    }
    comments
}

#[derive(Drop)]
pub struct Cover<T> {
    inner: T,
    comments: Marks,
}

impl<T: Text> Text for Cover<T> {
    ghost cells = { λ s. shown_by (marked s.comments.words) 0 (T.Text.cells s.inner) };

    ghost short = { λ s. shown_by_short (marked s.comments.words) 0 (T.Text.cells s.inner) (T.Text.short s.inner) };

    fn len(&self) -> usize {
        self.inner.len()
    }

    #[tactic(auto, using(crate::proofs::Covering::answer_through))]
    fn cell(&self, place: usize) -> Result<Option<u8>, Fault> {
        let inside = self.comments.holds(place);
        Ok(self.inner.cell(place)?.map(|byte| shown_byte(inside, byte)))
    }
}

impl<T: Text> Cover<T> {
    // Looks at the text once.
    pub fn new(inner: T) -> Cover<T>
        ensures below { result.inner ≡ inner }
        ensures meaning { Covering (T.Text.cells inner) (shown_by (marked result.comments.words) 0 (T.Text.cells inner)) }
    {
        let comments = comments_of(&inner);
        Cover { inner, comments }
    }
}
