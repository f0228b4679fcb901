// The slots that a caller lends to a memory.
ghost use Rattle.std.specs.Prelude.{◌≡◌, ◌<◌, ◌≤◌, ◌++◌, length, drop, replicate, None, slice_index_or, slice_set};
ghost use Rattle.slot_memory.specs.Lent.{most_slots, contents, used, rest};

/// How many of the lent slots are used at most: one more than a ring may have, so that a longer row
/// is told apart from one of the right length.
const MOST: usize = 1025;

/// A row of slots, lent by the caller.
// That the row is cut to its first 1,025 slots can't be a ghost field here: the borrow checker covers no call
// whose type argument holds a `&mut` and a struct with a ghost field, and so no dock over such a memory.
#[derive(Drop)]
pub struct Lent<'a, E: Copy> {
    /// The whole row; only the first 1,025 count.
    row: &'a mut [Option<E>],
}

// A function of its own, since the check leaves the bounds of `self.row[..]` in a generic struct open.
fn write<E: Copy>(row: &mut [Option<E>], i: usize, content: Option<E>)
    requires { i < length row.old }
    ensures { row.new ≡ slice_set row.old i content }
{
    row[i] = content;
}

// Empties the first slots, up to `end`; apart for the same reason.
fn empty<E: Copy>(row: &mut [Option<E>], end: usize)
    requires { end ≤ length row.old }
    ensures { row.new ≡ replicate end None ++ drop end row.old }
{
    row[..end].fill(None);
}

impl<'a, E: Copy> Lent<'a, E> {
    /// The first 1,025 of the slots, or all of them if they are fewer, as they are.
    pub fn new(row: &'a mut [Option<E>]) -> Lent<'a, E>
        ensures contents { contents result ≡ used row.old }
        ensures rest { rest result ≡ drop most_slots row.old }
    {
        Lent { row }
    }

    // The slots that count.
    fn used(&self) -> &[Option<E>]
        ensures contents { result.now ≡ contents self.now }
        ensures few { (length result.now ≤ 1025) × (length result.now ≤ length self.now.row.now) }
    {
        &self.row[..MOST.min(self.row.len())]
    }

    /// How many slots there are.
    pub fn len(&self) -> u32
        ensures { result ≡ length (contents self.now) }
    {
        self.used().len() as u32
    }

    /// What the slot holds; past the end, nothing.
    pub fn get(&self, slot: u32) -> Option<E>
        ensures { result ≡ slice_index_or (contents self.now) slot None }
    {
        self.used().get(slot as usize).copied().flatten()
    }

    /// Writes a slot; past the end, none.
    pub fn put(&mut self, slot: u32, content: Option<E>)
        ensures contents { contents self.new ≡ slice_set (contents self.old) slot content }
        ensures rest { rest self.new ≡ rest self.old }
    {
        if slot < self.len() {
            write(self.row, slot as usize, content);
        }
    }

    /// Empties every slot.
    pub fn clear(&mut self)
        ensures contents { contents self.new ≡ replicate (length (contents self.old)) None }
        ensures rest { rest self.new ≡ rest self.old }
    {
        let end = self.used().len();
        empty(self.row, end);
    }
}
