// The marks of all bays.
ghost use Rattle.std.specs.Prelude.{◌≡◌, ◌<◌, map, length, replicate, if◌then◌else◌, Some, None, slice_set};
ghost use Rattle.cell_memory.specs.Marks.{accepts, struck};

use crate::Marking;
use slot_memory::{BAYS, Bay, Cell};

/// For each bay its mark.
// An array, since no call allocates. That it has 16 can't be a ghost field: the borrow checker covers no call whose
// type argument holds a `&mut` and a struct with a ghost field, as a memory over lent slots would be.
#[derive(Drop)]
pub struct Marks<K: Copy> {
    bays: [Option<K>; BAYS as usize],
}

// What an accepted store on the cell leaves of a bay's mark: apart from the loop, whose proof needs its result by name.
fn strike<K: Marking>(mark: Option<K>, cell: Cell) -> Option<K>
    ensures { result ≡ struck K.Marking cell mark }
{
    mark.and_then(|on| on.strike(cell))
}

impl<K: Marking> Marks<K> {
    /// No bay has a mark.
    pub(crate) fn new() -> Marks<K>
        ensures { result.bays ≡ replicate 16 None }
    {
        Marks {
            bays: [None; BAYS as usize],
        }
    }

    /// Moves the bay's mark to the cell.
    pub(crate) fn make(&mut self, bay: Bay, cell: Cell)
        requires { bay < 16 }
        ensures long { length self.old.bays ≡ 16 }
        ensures made { self.new.bays ≡ slice_set self.old.bays bay (Some (K.made cell)) }
    {
        self.bays[bay as usize] = Some(K::on(cell));
    }

    // Strikes every mark.
    fn strike_all(&mut self, cell: Cell)
        ensures { self.new.bays ≡ map (struck K.Marking cell) self.old.bays }
    {
        for mark in self.bays.iter_mut() {
            *mark = strike(*mark, cell);
        }
    }

    /// Whether a store by the bay on the cell is accepted: then every mark is struck, and otherwise the
    /// bay's own goes.
    pub(crate) fn settle(&mut self, bay: Bay, cell: Cell) -> bool
        requires { bay < 16 }
        ensures long { length self.old.bays ≡ 16 }
        ensures accepted { result ≡ accepts K.Marking self.old.bays bay cell }
        ensures after { self.new.bays ≡ (if result then map (struck K.Marking cell) self.old.bays else slice_set self.old.bays bay None) }
    {
        let accepted = self.bays[bay as usize].is_some_and(|on| on.allows(cell));
        if accepted {
            self.strike_all(cell);
        } else {
            self.bays[bay as usize] = None;
        }
        accepted
    }
}
