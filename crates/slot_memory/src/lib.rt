// The slot memory: the interface between a dock and the board that holds its slots and its two
// indices. A memory is told apart from another only by the rules that `specs/Rules.antt` states.
#![tactic(auto)]

ghost use Rattle.std.specs.Prelude.{◌≡◌, ℕ, ◌≤◌, length, Some, None};
ghost use Rattle.slot_memory.specs.Meaning.{Meaning, most_spare, same_cell};
ghost use Rattle.slot_memory.specs.Rules.{InSlot, InIndex, Operation, Clear, Read, Mark, Store, Reply, Done, Number, Content, Verdict, Keeps};
ghost use Rattle.slot_memory.specs.Words.{stored_word};
ghost use Rattle.slot_memory.specs.declared.Cell.TheVariants.{Slot, At};

use std::fmt;

mod lent;

pub use lent::Lent;

/// The number of a bay, counted from 0.
pub type Bay = u8;

/// How many bays a memory knows: each has room for one mark.
pub const BAYS: u8 = 16;

/// One of the two indices of the ring.
#[derive(Clone, Copy, Debug, PartialEq, Eq)]
pub enum Index {
    /// Where the next element goes.
    Tail,
    /// Where the oldest element is.
    Head,
}

/// What a bay can mark and store in.
#[derive(Clone, Copy, Debug, PartialEq, Eq)]
pub enum Cell {
    Slot(u32),
    At(Index),
}

impl Cell {
    /// Whether the two are one cell. This is `==`, said in the words of the rules.
    pub fn is(self, other: Cell) -> bool
        ensures { result ≡ same_cell self other }
    {
        self == other
    }
}

/// What a store answers.
// No `Result`: a refused store is no error, but an answer after which a line goes another way.
#[derive(Clone, Copy, Debug, PartialEq, Eq)]
pub enum Stored {
    /// The cell is written, and every mark on it is gone.
    Accepted,
    /// Nothing is written. The storing bay's mark is gone.
    Refused,
}

impl fmt::Display for Stored {
    ghost output = { λ x. Some (stored_word x) };

    fn fmt<W: fmt::Write>(&self, f: &mut fmt::Formatter<W>) -> fmt::Result {
        f.write_str(match self {
            Stored::Accepted => "accepted",
            Stored::Refused => "refused",
        })
    }
}

/// A board that keeps a ring's slots, each empty or with an element, and the ring's two indices.
///
/// An index is read by nobody in particular; marks and stores are made by a bay. A bay number or a
/// slot number out of range is answered with empty, 0 or `Refused`, and alters nothing.
// The clause `fixed` stands in each method that writes: it ties the memory before to the memory after, which no type
// does. Bay and slot, or bay and index, are two parameters, since a line of a call has them from two places.
pub trait SlotMemory {
    type Element: Copy;

    /// What this memory means.
    ghost meaning: { Self → Meaning Self.Element };

    /// The largest spare that it may have.
    ghost limit: { Self → ℕ };

    ghost bounded: { (m : Self) → limit m ≤ most_spare };

    /// What this memory does, exactly: a relation of its own, within the rules.
    ghost exactly: { Self → Operation Self.Element → Reply Self.Element → Self → Type 0 };

    /// The number of slots. It never changes.
    fn length(&self) -> u32
        ensures { result ≡ length (meaning self.now).slots };

    /// Empties every slot, sets both indices to `base` and removes all marks.
    fn clear(&mut self, base: u32)
        ensures rules { Keeps (limit self.old) (meaning self.old) (Clear base) Done (meaning self.new) }
        ensures exact { exactly self.old (Clear base) Done self.new }
        ensures fixed { limit self.new ≡ limit self.old };

    /// Answers an index.
    fn read(&self, index: Index) -> u32
        ensures rules { Keeps (limit self.now) (meaning self.now) (Read index) (Number result) (meaning self.now) }
        ensures exact { exactly self.now (Read index) (Number result) self.now };

    /// Answers what the slot holds, and moves the bay's mark to it.
    fn mark_slot(&mut self, bay: Bay, slot: u32) -> Option<Self::Element>
        ensures rules { Keeps (limit self.old) (meaning self.old) (Mark bay (Slot slot)) (Content result) (meaning self.new) }
        ensures exact { exactly self.old (Mark bay (Slot slot)) (Content result) self.new }
        ensures fixed { limit self.new ≡ limit self.old };

    /// Answers an index, and moves the bay's mark to it.
    fn mark_index(&mut self, bay: Bay, index: Index) -> u32
        ensures rules { Keeps (limit self.old) (meaning self.old) (Mark bay (At index)) (Number result) (meaning self.new) }
        ensures exact { exactly self.old (Mark bay (At index)) (Number result) self.new }
        ensures fixed { limit self.new ≡ limit self.old };

    /// Stores an element or empty in a slot, if the bay's mark is still on it and the board does not balk.
    fn store_slot(&mut self, bay: Bay, slot: u32, content: Option<Self::Element>) -> Stored
        ensures rules { Keeps (limit self.old) (meaning self.old) (Store bay (InSlot slot content)) (Verdict result) (meaning self.new) }
        ensures exact { exactly self.old (Store bay (InSlot slot content)) (Verdict result) self.new }
        ensures fixed { limit self.new ≡ limit self.old };

    /// Stores in an index, if the bay's mark is still on it and the board does not balk.
    fn store_index(&mut self, bay: Bay, index: Index, number: u32) -> Stored
        ensures rules { Keeps (limit self.old) (meaning self.old) (Store bay (InIndex index number)) (Verdict result) (meaning self.new) }
        ensures exact { exactly self.old (Store bay (InIndex index number)) (Verdict result) self.new }
        ensures fixed { limit self.new ≡ limit self.old };
}
