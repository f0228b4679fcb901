// A board whose kind is chosen while a program runs: one of the slot memories, behind the same interface.
#![tactic(auto)]

ghost use Rattle.std.specs.Prelude.{◌≡◌, drop};
ghost use Rattle.slot_memory.specs.Lent.{most_slots};
ghost use Rattle.slot_memory.specs.Rules.{InSlot, Store, Verdict, Keeps};
ghost use Rattle.mark_memory.specs.Exact.{fresh};
ghost use Rattle.board.specs.Kinds.{fresh_kind, kind_of, meaning_of, rest_of, limit_of, bounded, Plays};

use mark_memory::MarkMemory;
use row_memory::RowMemory;
use slot_memory::{Bay, Index, SlotMemory, Stored};

/// Which slot memory a board is to be.
#[derive(Clone, Copy, Debug, PartialEq, Eq)]
pub enum BoardKind {
    /// The mark memory, which accepts every live store.
    Marks,
    /// The row memory, which balks at a store beside one that it just accepted.
    Rows,
}

/// A slot memory of one of the kinds.
#[derive(Drop)]
pub enum Board<'a, E: Copy> {
    Marks(MarkMemory<'a, E>),
    Rows(RowMemory<'a, E>),
}

impl<'a, E: Copy> Board<'a, E> {
    /// A board of that kind over at most the first 1,025 of the slots, as they are, with both indices 0
    /// and no mark.
    pub fn new(kind: BoardKind, row: &'a mut [Option<E>]) -> Board<'a, E>
        ensures kind { kind_of result ≡ fresh_kind kind }
        ensures meaning { meaning_of result ≡ fresh row.old }
        ensures rest { rest_of result ≡ drop most_slots row.old }
    {
        match kind {
            BoardKind::Marks => Board::Marks(MarkMemory::new(row)),
            BoardKind::Rows => Board::Rows(RowMemory::new(row)),
        }
    }
}

// Each operation is one `match` on the kind. A `dyn` memory would be no plainer: clauses could not say of which
// kind it is, and so not what it answers.
impl<'a, E: Copy> SlotMemory for Board<'a, E> {
    type Element = E;

    ghost meaning = { meaning_of };

    ghost limit = { limit_of };

    ghost bounded = { bounded };

    ghost exactly = { Plays };

    fn length(&self) -> u32 {
        match self {
            Board::Marks(memory) => memory.length(),
            Board::Rows(memory) => memory.length(),
        }
    }

    fn clear(&mut self, base: u32) {
        match self {
            Board::Marks(memory) => memory.clear(base),
            Board::Rows(memory) => memory.clear(base),
        }
    }

    fn read(&self, index: Index) -> u32 {
        match self {
            Board::Marks(memory) => memory.read(index),
            Board::Rows(memory) => memory.read(index),
        }
    }

    fn mark_slot(&mut self, bay: Bay, slot: u32) -> Option<E> {
        match self {
            Board::Marks(memory) => memory.mark_slot(bay, slot),
            Board::Rows(memory) => memory.mark_slot(bay, slot),
        }
    }

    fn mark_index(&mut self, bay: Bay, index: Index) -> u32 {
        match self {
            Board::Marks(memory) => memory.mark_index(bay, index),
            Board::Rows(memory) => memory.mark_index(bay, index),
        }
    }

    // With clauses, which the check can't take from the trait for a parameter that is an `Option` of its element.
    fn store_slot(&mut self, bay: Bay, slot: u32, content: Option<E>) -> Stored
        ensures rules { Keeps (limit_of self.old) (meaning_of self.old) (Store bay (InSlot slot content)) (Verdict result) (meaning_of self.new) }
        ensures exact { Plays self.old (Store bay (InSlot slot content)) (Verdict result) self.new }
        ensures fixed { limit_of self.new ≡ limit_of self.old }
    {
        match self {
            Board::Marks(memory) => memory.store_slot(bay, slot, content),
            Board::Rows(memory) => memory.store_slot(bay, slot, content),
        }
    }

    fn store_index(&mut self, bay: Bay, index: Index, number: u32) -> Stored {
        match self {
            Board::Marks(memory) => memory.store_index(bay, index, number),
            Board::Rows(memory) => memory.store_index(bay, index, number),
        }
    }
}
