// A list in slots that the caller lends, written once for every kind of record.
ghost use Rattle.std.specs.Prelude.{◌≡◌, ℕ, ◌<◌, length, take, Some, None, MatchOption, IfErr, is_ok, nat_lt, slice_set};
ghost use Rattle.std.specs.List.{slice_get};
ghost use Rattle.whole.specs.Slots.{pushed_slots, pushed_len};

// The first `len` slots hold the records. The slots are the caller's, since a library has no heap to grow a `Vec` in.
// Each contract says that they are still those lent: so the caller knows what is in them when the list is gone.
#[derive(Drop)]
pub struct List<'a, R> {
    slots: &'a mut [R],
    len: usize,
}

fn put<R: Drop>(slots: &mut [R], at: usize, record: R)
    requires { at < length slots.old }
    ensures { slots.new ≡ slice_set slots.old at «record» }
{
    slots[at] = record;
}

impl<'a, R: Drop> List<'a, R> {
    // No record yet; the slots stay as they are.
    pub fn new(slots: &'a mut [R]) -> List<'a, R>
        ensures same_reference { result.slots.ghost_name ≡ slots.entry.ghost_name }
        ensures len { result.len ≡ 0 }
        ensures slots { result.slots.now ≡ slots.old }
    {
        List { slots, len: 0 }
    }

    // One record behind the others; it comes back where no slot is left, and then nothing changes.
    pub fn push(&mut self, record: R) -> Result<(), R>
        ensures same_reference { self.new.slots.ghost_name ≡ self.old.slots.ghost_name }
        ensures answer { is_ok result ≡ nat_lt self.old.len (length self.old.slots.now) }
        ensures given_back { IfErr result (λ r. r ≡ «record») }
        ensures len { self.new.len ≡ pushed_len self.old.slots.now self.old.len }
        ensures slots { self.new.slots.now ≡ pushed_slots self.old.slots.now self.old.len «record» }
    {
        if self.len >= self.slots.len() {
            return Err(record);
        }
        put(self.slots, self.len, record);
        self.len += 1;
        Ok(())
    }

    // No record any more; the slots stay as they are.
    pub fn clear(&mut self)
        ensures same_reference { self.new.slots.ghost_name ≡ self.old.slots.ghost_name }
        ensures len { self.new.len ≡ 0 }
        ensures slots { self.new.slots.now ≡ self.old.slots.now }
    {
        self.len = 0;
    }

    pub fn len(&self) -> usize
        ensures { result ≡ self.now.len }
    {
        self.len
    }

    // How many slots there are, filled or not.
    pub fn room(&self) -> usize
        ensures { result ≡ length self.now.slots.now }
    {
        self.slots.len()
    }

    // The record of a number, if there.
    pub fn get(&self, i: usize) -> Option<&R>
        ensures { MatchOption result (slice_get (take self.now.len self.now.slots.now) i ≡ None) (λ x. slice_get (take self.now.len self.now.slots.now) i ≡ Some x.now) }
    {
        if i < self.len {
            self.slots.get(i)
        } else {
            None
        }
    }
}
