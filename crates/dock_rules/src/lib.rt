// The rules of the dock: what callers see, as enums with all their cases; the dock's own record; and
// in `specs/` the lines, the calls, runs of calls and the law that every run obeys.
#![tactic(auto)]

ghost use Rattle.std.specs.Prelude.{◌≡◌, Some};
ghost use Rattle.dock_rules.specs.Runs.{EveryRun};
ghost use Rattle.dock_rules.specs.Words.{label, outcome_word, abandoned_word, refusal_number, refusal_word};

use slot_memory::{BAYS, Bay};
use std::fmt;

/// Where a bay's call stands: the line that its next step runs. Lines of a put begin with E, lines
/// of a take with D.
#[derive(Clone, Copy, Debug, PartialEq, Eq)]
pub enum Line {
    E5,
    E6,
    E9,
    E10,
    E12,
    E13,
    E15,
    E16,
    E17,
    D5,
    D6,
    D9,
    D10,
    D12,
    D13,
    D15,
    D16,
    D17,
}

/// How a call ends.
#[derive(Clone, Copy, Debug, PartialEq, Eq)]
pub enum Outcome {
    /// A put found the ring full.
    Full,
    /// A put's element is in the ring.
    Stored,
    /// A take found the ring empty.
    Empty,
    /// A take's element is in the tray.
    Taken,
}

/// What becomes of a call that is given up.
#[derive(Clone, Copy, Debug, PartialEq, Eq)]
pub enum Abandoned {
    /// The call has changed no slot, and never will.
    Untouched,
    /// The put's element lies in its slot.
    Stored,
    /// The take's element lies in the tray.
    Taken,
}

/// What a step answers.
// No `ControlFlow`: at a line or ended is what callers print and compare, and none would use `?` on it.
#[derive(Clone, Copy, Debug, PartialEq, Eq)]
pub enum Stepped {
    At(Line),
    Ended(Outcome),
}

/// Why a call is turned down, in the order in which the reasons are looked at, each with the number by
/// which it is printed.
#[derive(Clone, Copy, Debug, PartialEq, Eq)]
pub enum Refusal {
    /// The dock is open already.
    Open = 1,
    /// The memory's length is no power of two from 1 to 1,024.
    Length = 2,
    /// The number of bays is 0 or above 16.
    Bays = 3,
    /// The lifetime is 0 or above 2,147,483,648.
    Life = 4,
    /// The dock is not open.
    Shut = 5,
    /// There are more or fewer trays than bays.
    Trays = 6,
    /// There is no bay of that number.
    Bay = 7,
    /// The bay is not free.
    Busy = 8,
    /// The lifetime's calls have all been started.
    Worn = 9,
    /// The bay has no call under way.
    Idle = 10,
    /// The bay has no call, or no receipt, of that serial.
    Serial = 11,
    /// The call is still under way.
    Early = 12,
    /// The call has ended.
    Late = 13,
    /// The book is full.
    Book = 14,
}

/// A call under way, as its bay notes it.
#[derive(Clone, Copy, Debug, PartialEq, Eq)]
pub struct Attempt {
    pub serial: u32,
    pub line: Line,
    /// The index as the call's last first line read it: Tail for a put, Head for a take.
    pub index: u32,
    /// Whether the slot held an element when the call last marked it.
    // No `Option` of the element: a take has it in its tray, and a put has no need of it.
    pub held: bool,
}

/// What the dock notes of a bay.
#[derive(Clone, Copy, Debug, PartialEq, Eq)]
pub enum BayRecord {
    Free,
    UnderWay(Attempt),
    /// The call of this serial has ended and is not collected.
    Ended(u32, Outcome),
    /// The receipt of this serial is out: the element lies in the tray.
    Owed(u32),
}

/// What the dock notes of itself.
#[derive(Clone, Copy, Debug, PartialEq, Eq)]
pub struct DockState {
    // No `Option` round the others: each definition of the rules would then read bays and records through it.
    pub opened: bool,
    /// How many bays there are.
    pub bays: Bay,
    /// How many calls may be started.
    pub lifetime: u32,
    /// How many calls have been started: the serial of the last.
    pub started: u32,
    // An array beside `bays`, since no call of the dock allocates.
    pub records: [BayRecord; BAYS as usize],
}

impl From<Refusal> for u8 {
    ghost from_gives = { λ refusal number. number ≡ refusal_number refusal };

    /// The number of the reason.
    fn from(refusal: Refusal) -> u8 {
        refusal as u8
    }
}

impl Line {
    /// The line's label.
    // The text of `Display`, for whoever wants it without a formatter.
    pub fn text(self) -> &'static str
        ensures { result.now ≡ label self }
    {
        match self {
            Line::E5 => "E5",
            Line::E6 => "E6",
            Line::E9 => "E9",
            Line::E10 => "E10",
            Line::E12 => "E12",
            Line::E13 => "E13",
            Line::E15 => "E15",
            Line::E16 => "E16",
            Line::E17 => "E17",
            Line::D5 => "D5",
            Line::D6 => "D6",
            Line::D9 => "D9",
            Line::D10 => "D10",
            Line::D12 => "D12",
            Line::D13 => "D13",
            Line::D15 => "D15",
            Line::D16 => "D16",
            Line::D17 => "D17",
        }
    }
}

impl fmt::Display for Line {
    ghost output = { λ x. Some (label x) };

    fn fmt<W: fmt::Write>(&self, f: &mut fmt::Formatter<W>) -> fmt::Result {
        f.write_str(self.text())
    }
}

impl fmt::Display for Outcome {
    ghost output = { λ x. Some (outcome_word x) };

    fn fmt<W: fmt::Write>(&self, f: &mut fmt::Formatter<W>) -> fmt::Result {
        f.write_str(match self {
            Outcome::Full => "FULL",
            Outcome::Stored => "STORED",
            Outcome::Empty => "EMPTY",
            Outcome::Taken => "TAKEN",
        })
    }
}

impl fmt::Display for Abandoned {
    ghost output = { λ x. Some (abandoned_word x) };

    fn fmt<W: fmt::Write>(&self, f: &mut fmt::Formatter<W>) -> fmt::Result {
        f.write_str(match self {
            Abandoned::Untouched => "UNTOUCHED",
            Abandoned::Stored => "STORED",
            Abandoned::Taken => "TAKEN",
        })
    }
}

impl fmt::Display for Refusal {
    ghost output = { λ x. Some (refusal_word x) };

    fn fmt<W: fmt::Write>(&self, f: &mut fmt::Formatter<W>) -> fmt::Result {
        f.write_str(match self {
            Refusal::Open => "OPEN",
            Refusal::Length => "LENGTH",
            Refusal::Bays => "BAYS",
            Refusal::Life => "LIFE",
            Refusal::Shut => "SHUT",
            Refusal::Trays => "TRAYS",
            Refusal::Bay => "BAY",
            Refusal::Busy => "BUSY",
            Refusal::Worn => "WORN",
            Refusal::Idle => "IDLE",
            Refusal::Serial => "SERIAL",
            Refusal::Early => "EARLY",
            Refusal::Late => "LATE",
            Refusal::Book => "BOOK",
        })
    }
}

/// The run law, as a theorem: for every kind of element, every memory that keeps its rules and every
/// run of calls, each history that is reached is linearizable and keeps the progress bound.
pub fn every_run_stands<E>()
    ensures { EveryRun E }
{}
