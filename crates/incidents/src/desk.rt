// A dock of two bays, what its caller keeps, and the calls that the readers in its bays make.
ghost use Rattle.std.specs.Prelude.{◌<◌};
ghost use Rattle.dock.specs.Answered.{Out};

use crate::step::Step;
use dock::{Book, Dock, Receipt};
use dock_rules::{Line, Outcome, Refusal, Stepped};
use mark_memory::MarkMemory;
use slot_memory::Bay;
use std::fmt;
use visit::Visit;

/// The reader in one of the two bays, with a note of the last call that it started.
#[derive(Drop)]
pub(crate) struct Reader {
    pub(crate) bay: Bay,
    serial: u32,
    /// The line where the call stands.
    pub(crate) line: Line,
    ghost in_dock: { bay < 2 },
}

/// A dock of visits over the mark memory, and what its caller keeps.
#[derive(Drop)]
pub(crate) struct Desk<'a> {
    dock: Dock<MarkMemory<'a, Visit>>,
    // A row beside the readers, since the dock is lent the trays as one.
    trays: [Visit; 2],
    pub(crate) book: Book<'a, Visit>,
    /// How many puts were collected as STORED.
    pub(crate) stored: u32,
}

/// A visit that is entered in the book.
#[derive(Clone, Copy)]
pub(crate) struct Entry {
    visit: Visit,
    /// Its place in the book, counted from 1.
    number: usize,
}

/// What came of a collected call.
#[derive(Clone, Copy)]
pub(crate) enum Closed {
    /// The call has ended so, with nothing in the tray.
    Ended(Outcome),
    /// The take's visit is entered in the book, or waived since the book refused it.
    Taken(Result<Entry, Refusal>),
}

impl fmt::Display for Closed {
    fn fmt<W: fmt::Write>(&self, f: &mut fmt::Formatter<W>) -> fmt::Result {
        match *self {
            Closed::Ended(outcome) => write!(f, "{outcome}"),
            Closed::Taken(Ok(Entry { visit, number })) => {
                write!(f, "TAKEN, and {visit} is number {number} in the book")
            }
            Closed::Taken(Err(why)) => {
                write!(f, "TAKEN, and waived, since the book is refused as {why}")
            }
        }
    }
}

impl Reader {
    /// The reader in that bay.
    pub(crate) fn new(bay: Bay) -> Reader
        requires { bay < 2 }
    {
        Reader {
            bay,
            serial: 0,
            line: Line::E5,
        }
    }
}

impl<'a> Desk<'a> {
    /// A shut dock over the slots, with empty trays and an empty book.
    pub(crate) fn new(slots: &'a mut [Option<Visit>], row: &'a mut [Visit]) -> Desk<'a> {
        Desk {
            dock: Dock::new(MarkMemory::new(slots)),
            trays: [Visit::default(); 2],
            book: Book { row, entered: 0 },
            stored: 0,
        }
    }

    /// Opens the dock with two bays.
    pub(crate) fn open(&mut self) -> Result<(), Refusal> {
        self.dock.open(2, 100, 0)
    }

    /// Starts a put, and notes it.
    pub(crate) fn put(&mut self, reader: &mut Reader, visit: Visit) -> Result<u32, Refusal> {
        reader.serial = self.dock.put(reader.bay, visit, &mut self.trays)?;
        reader.line = Line::E5;
        Ok(reader.serial)
    }

    /// Starts a take, and notes it.
    pub(crate) fn take(&mut self, reader: &mut Reader) -> Result<u32, Refusal> {
        reader.serial = self.dock.take(reader.bay)?;
        reader.line = Line::D5;
        Ok(reader.serial)
    }

    /// Steps, and notes where the call stands then.
    pub(crate) fn step(&mut self, reader: &mut Reader) -> Result<Step, Refusal> {
        let from = reader.line;
        let stepped = self.dock.step(reader.bay, &mut self.trays)?;
        if let Stepped::At(line) = stepped {
            reader.line = line;
        }
        Ok(Step { from, stepped })
    }

    // Enters the receipt's visit in the book, or waives it where that is refused. No call of the dock does both, since
    // it would be public and need the `requires`.
    fn settle(&mut self, receipt: Receipt) -> Result<(), Refusal>
        requires { Out self.old.dock.state receipt }
    {
        match self.dock.enter(receipt, &self.trays, &mut self.book) {
            Ok(()) => Ok(()),
            Err((why, back)) => {
                self.dock.waive(back).unwrap();
                Err(why)
            }
        }
    }

    /// Collects the reader's call; a take's visit goes into the book.
    pub(crate) fn collect(&mut self, reader: &Reader) -> Result<Closed, Refusal> {
        let collected = self.dock.collect(reader.bay, reader.serial)?;
        let (outcome, receipt) = collected.into_parts();
        if outcome == Outcome::Stored {
            self.stored = self.stored.saturating_add(1);
        }
        Ok(match receipt {
            Some(receipt) => Closed::Taken(
                self.settle(receipt).map(|()| Entry {
                    visit: self.trays[reader.bay as usize],
                    number: self.book.entered,
                }),
            ),
            None => Closed::Ended(outcome),
        })
    }
}
