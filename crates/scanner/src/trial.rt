// A trial of a form: its end puts the cursor back where the form began, unless the form was accepted.
ghost use Rattle.std.specs.Prelude.{◌≡◌, false, if◌then◌else◌};

use crate::cursor::Cursor;
use texts::text::Text;

pub struct Trial<'a, T: Text> {
    pub cursor: &'a mut Cursor<T>,
    start: usize,
    pub accepted: bool,
}

impl<T: Text> Drop for Trial<'_, T> {
    fn drop(self)
        ensures text { self.exit.0.now.text ≡ self.entry.cursor.now.text }
        ensures place { self.exit.0.now.place ≡ (if self.entry.accepted then self.entry.cursor.now.place else self.entry.start) }
    {
        if !self.accepted {
            let start = self.start;
            self.cursor.go_to(start);
        }
        let Trial {
            cursor: _,
            start: _,
            accepted: _,
        } = self;
    }
}

impl<'a, T: Text> Trial<'a, T> {
    pub fn begin(cursor: &'a mut Cursor<T>) -> Trial<'a, T>
        ensures here { result.cursor.now ≡ cursor.old }
        ensures start { result.start ≡ cursor.old.place }
        ensures open { result.accepted ≡ false }
        ensures lent { result.cursor.ghost_name ≡ cursor.entry.ghost_name }
    {
        let start = cursor.place();
        Trial {
            cursor,
            start,
            accepted: false,
        }
    }
}
