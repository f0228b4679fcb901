// What a memory over cells does at each operation.
ghost use Rattle.std.specs.Prelude.{◌≡◌, ◌<◌, replicate, drop, None, IsTrue};
ghost use Rattle.slot_memory.specs.Lent.{most_slots};
ghost use Rattle.slot_memory.specs.Meaning.{known};
ghost use Rattle.slot_memory.specs.Rules.{InSlot, Store, Verdict, Keeps};
ghost use Rattle.cell_memory.specs.Marks.{most, most_within};
ghost use Rattle.cell_memory.specs.Exact.{meaning_of, marks_of, rest_of, fresh, Does};

use crate::marks::Marks;
use crate::{CellMemory, Marking};
use slot_memory::{BAYS, Bay, Cell, Index, Lent, SlotMemory, Stored};

impl<'a, E: Copy, K: Marking> CellMemory<'a, E, K> {
    /// A memory over at most the first 1,025 of the slots, as they are, with both indices 0 and no mark.
    pub fn new(row: &'a mut [Option<E>]) -> CellMemory<'a, E, K>
        ensures meaning { meaning_of K.Marking result ≡ fresh row.old }
        ensures marks { marks_of result ≡ replicate 16 None }
        ensures rest { rest_of result ≡ drop most_slots row.old }
    {
        CellMemory {
            slots: Lent::new(row),
            tail: 0,
            head: 0,
            marks: Marks::new(),
        }
    }

    // Whether both the bay and the cell are in range.
    fn knows(&self, bay: Bay, cell: Cell) -> bool
        ensures known { result ≡ known (meaning_of K.Marking self.now) bay cell }
        ensures bay { IsTrue result → bay < 16 }
    {
        bay < BAYS
            && match cell {
                Cell::Slot(slot) => slot < self.slots.len(),
                Cell::At(_) => true,
            }
    }
}

impl<'a, E: Copy, K: Marking> SlotMemory for CellMemory<'a, E, K> {
    type Element = E;

    ghost meaning = { meaning_of K.Marking };

    ghost limit = { λ _. most K.Marking };

    ghost bounded = { λ _. most_within K.Marking };

    ghost exactly = { Does K.Marking };

    fn length(&self) -> u32 {
        self.slots.len()
    }

    fn clear(&mut self, base: u32) {
        self.slots.clear();
        self.tail = base;
        self.head = base;
        self.marks = Marks::new();
    }

    fn read(&self, index: Index) -> u32 {
        match index {
            Index::Tail => self.tail,
            Index::Head => self.head,
        }
    }

    fn mark_slot(&mut self, bay: Bay, slot: u32) -> Option<E> {
        if !self.knows(bay, Cell::Slot(slot)) {
            return None;
        }
        self.marks.make(bay, Cell::Slot(slot));
        self.slots.get(slot)
    }

    fn mark_index(&mut self, bay: Bay, index: Index) -> u32 {
        if !self.knows(bay, Cell::At(index)) {
            return 0;
        }
        self.marks.make(bay, Cell::At(index));
        self.read(index)
    }

    // With clauses, which the check can't take from the trait for a parameter that is an `Option` of its element. Each of
    // these memories has the one limit, so that `fixed` says it of itself.
    fn store_slot(&mut self, bay: Bay, slot: u32, content: Option<E>) -> Stored
        ensures rules { Keeps (most K.Marking) (meaning_of K.Marking self.old) (Store bay (InSlot slot content)) (Verdict result) (meaning_of K.Marking self.new) }
        ensures exact { Does K.Marking self.old (Store bay (InSlot slot content)) (Verdict result) self.new }
        ensures fixed { most K.Marking ≡ most K.Marking }
    {
        if !self.knows(bay, Cell::Slot(slot)) {
            return Stored::Refused;
        }
        if !self.marks.settle(bay, Cell::Slot(slot)) {
            return Stored::Refused;
        }
        self.slots.put(slot, content);
        Stored::Accepted
    }

    // Its checks are those of `store_slot`: a function for them would say once more what `settle` says of the marks.
    fn store_index(&mut self, bay: Bay, index: Index, number: u32) -> Stored {
        if !self.knows(bay, Cell::At(index)) {
            return Stored::Refused;
        }
        if !self.marks.settle(bay, Cell::At(index)) {
            return Stored::Refused;
        }
        match index {
            Index::Tail => self.tail = number,
            Index::Head => self.head = number,
        }
        Stored::Accepted
    }
}
