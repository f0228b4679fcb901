// The calls of an incident, each told in print with what the dock answered.
use crate::desk::{Desk, Reader};
use dock_rules::{Refusal, Stepped};
use std::io;
use visit::Visit;

/// More steps than any call of the stories takes.
const PATIENCE: u32 = 64;

/// A desk whose calls are told.
#[derive(Drop)]
pub(crate) struct Stage<'a, 'b, R: Print> {
    rt: &'a R,
    desk: Desk<'b>,
}

impl<R: Print> Stage<'_, '_, R> {
    // Opens the dock, and tells whether it is open.
    fn open(&mut self) -> io::Result<()> {
        match self.desk.open() {
            Ok(()) => println!(self.rt; "  The dock is open."),
            Err(why) => println!(self.rt; "  The dock stays shut, refused as {why}."),
        }
    }

    // Tells how a call was started.
    fn started(&self, began: Result<u32, Refusal>) -> io::Result<()> {
        match began {
            Ok(serial) => println!(self.rt; ": call {serial}."),
            Err(why) => println!(self.rt; ": refused as {why}."),
        }
    }

    /// Puts a visit.
    pub(crate) fn put(&mut self, reader: &mut Reader, visit: Visit) -> io::Result<()> {
        let bay = reader.bay;
        print!(self.rt; "  Bay {bay} puts {visit}")?;
        let began = self.desk.put(reader, visit);
        self.started(began)
    }

    /// Takes a visit.
    pub(crate) fn take(&mut self, reader: &mut Reader) -> io::Result<()> {
        let bay = reader.bay;
        print!(self.rt; "  Bay {bay} takes")?;
        let began = self.desk.take(reader);
        self.started(began)
    }

    // Steps, and tells what the bay did and where it stands then.
    fn step(&mut self, reader: &mut Reader) -> io::Result<()> {
        let bay = reader.bay;
        match self.desk.step(reader) {
            Ok(step) => println!(self.rt; "  Bay {bay} {step}."),
            Err(why) => println!(self.rt; "  Bay {bay} steps: refused as {why}."),
        }
    }

    /// Takes so many steps, each told.
    pub(crate) fn steps(&mut self, reader: &mut Reader, many: u32) -> io::Result<()> {
        for _ in 0..many {
            self.step(reader)?;
        }
        Ok(())
    }

    /// Steps until the call ends, told in one line.
    // A counted loop: each round prints and may fail at that, or ends the line, which a search over the steps would not do.
    pub(crate) fn through(&mut self, reader: &mut Reader) -> io::Result<()> {
        let bay = reader.bay;
        print!(self.rt; "  Bay {bay} steps through")?;
        for _ in 0..PATIENCE {
            match self.desk.step(reader).map(|step| step.stepped) {
                Ok(Stepped::At(line)) => print!(self.rt; " {line},")?,
                Ok(Stepped::Ended(outcome)) => return println!(self.rt; " and ends {outcome}."),
                Err(why) => return println!(self.rt; " and is refused as {why}."),
            }
        }
        println!(self.rt; " and does not end.")
    }

    /// Collects the call; a take's visit is entered in the book.
    pub(crate) fn collect(&mut self, reader: &Reader) -> io::Result<()> {
        let bay = reader.bay;
        print!(self.rt; "  Bay {bay} collects: ")?;
        match self.desk.collect(reader) {
            Ok(closed) => println!(self.rt; "{closed}."),
            Err(why) => println!(self.rt; "refused as {why}."),
        }
    }

    /// Tells what is done to the reader.
    pub(crate) fn tell_of(&self, reader: &Reader, what: &str) -> io::Result<()> {
        let Reader { bay, line, .. } = *reader;
        println!(self.rt; "  The reader in bay {bay} {what}, at {line}.")
    }

    // Tells what stands in the book, and how many visits were stored.
    fn tell_book(&self) -> io::Result<()> {
        println!(self.rt; "  The book:")?;
        let book = &self.desk.book;
        for (number, visit) in (1..).zip(book.row.iter().take(book.entered)) {
            println!(self.rt; "    {number}. {visit}")?;
        }
        let stored = self.desk.stored;
        let entered = book.entered;
        println!(self.rt; "  {stored} visits stored, {entered} in the book.")
    }
}

/// Plays a story on a new dock of two bays and two slots.
pub(crate) fn tell<R: Print, F: FnOnce(&mut Stage<'_, '_, R>) -> io::Result<()>>(
    rt: &R,
    story: F,
) -> io::Result<()>
    requires { F.IsAlwaysCallable story }
{
    let mut slots = [None; 2];
    let mut row = [Visit::default(); 8];
    let desk = Desk::new(&mut slots, &mut row);
    let mut stage = Stage { rt, desk };
    stage.open()?;
    story(&mut stage)?;
    stage.tell_book()
}
