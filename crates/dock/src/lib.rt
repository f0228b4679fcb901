// The dock: bays that put elements into one shared ring of slots and take elements out of it, one line
// of a call at a time, over any slot memory. What each call does is stated in `specs/Does.antt`.
#![tactic(auto)]

ghost use Rattle.std.specs.Prelude.{◌≡◌, ◌≤◌, length};
ghost use Rattle.dock_rules.specs.Calls.{most_bays};

use dock_rules::{Abandoned, DockState, Outcome};
use slot_memory::{Bay, SlotMemory};

mod calls;
mod lines;

/// A dock over a slot memory.
///
/// A *bay* runs one call at a time, a put or a take, and each of its steps touches the memory once. A
/// *tray* is a bay's place for one element, kept by the caller and handed over with a call. A dock is
/// made shut; once it is open it stays so.
#[derive(Drop)]
pub struct Dock<M: SlotMemory> {
    memory: M,
    /// What the dock notes of itself and of each bay.
    state: DockState,
    ghost few: { state.bays ≤ most_bays },
    ghost table: { length state.records ≡ most_bays },
}

/// What a caller holds for an element that lies in a tray: the bay is not free before the receipt is
/// spent, by `enter` or by `waive`, and it cannot be dropped. It is known by its bay and serial alone.
pub struct Receipt {
    bay: Bay,
    serial: u32,
}

/// The journal in which the elements of finished takes are entered, kept by the caller.
#[derive(Drop)]
pub struct Book<'a, E: Copy> {
    // Lent by the caller, with the number beside it, since no call of the dock allocates.
    pub row: &'a mut [E],
    /// How many are entered, from the front of the row. At its length or more, the book is full.
    pub entered: usize,
}

/// How a collected call ended.
// No `Outcome` over the receipt: every step and table of the rules would then write a take's end with `()`.
pub enum Collected {
    /// A put found the ring full.
    Full,
    /// A put's element is in the ring.
    Stored,
    /// A take found the ring empty.
    Empty,
    /// A take's element is in the tray, and this is its receipt.
    Taken(Receipt),
}

/// What became of a call that was given up.
// No `Abandoned` over the receipt, as `Collected` is no `Outcome` over it.
pub enum Left {
    /// The call has changed no slot, and never will.
    Untouched,
    /// The put's element lies in its slot.
    Stored,
    /// The take's element lies in the tray, and this is its receipt.
    Taken(Receipt),
}

impl Collected {
    ghost use Rattle.dock.specs.Answered.{collected_outcome, collected_receipt};

    /// How the call ended, and the receipt of a take.
    pub fn into_parts(self) -> (Outcome, Option<Receipt>)
        ensures outcome { result.0 ≡ collected_outcome self }
        ensures receipt { result.1 ≡ collected_receipt self }
    {
        match self {
            Collected::Full => (Outcome::Full, None),
            Collected::Stored => (Outcome::Stored, None),
            Collected::Empty => (Outcome::Empty, None),
            Collected::Taken(receipt) => (Outcome::Taken, Some(receipt)),
        }
    }
}

impl Left {
    ghost use Rattle.dock.specs.Answered.{left_abandoned, left_receipt};

    /// What became of the call, and the receipt of a take.
    pub fn into_parts(self) -> (Abandoned, Option<Receipt>)
        ensures abandoned { result.0 ≡ left_abandoned self }
        ensures receipt { result.1 ≡ left_receipt self }
    {
        match self {
            Left::Untouched => (Abandoned::Untouched, None),
            Left::Stored => (Abandoned::Stored, None),
            Left::Taken(receipt) => (Abandoned::Taken, Some(receipt)),
        }
    }
}
