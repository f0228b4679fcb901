// What a table is made of, and what it is run over.
use crate::bench::{Bench, Desk};
use crate::elements::{Item, Sample};
use crate::judge::Judge;
use dock_rules::{Abandoned, Line, Outcome, Refusal, Stepped};
use mark_memory::MarkMemory;
use row_memory::RowMemory;
use slot_memory::{Bay, SlotMemory};
use std::alloc::AllocError;
use std::process::Abort;
use visit::Visit;

/// One call with the answer that is due, several in a row, or a look at what the caller keeps.
// Data and no closure, since one table is run over both memories and on both kinds of element, and a closure
// would take one of these four alone.
#[derive(Clone, Copy)]
pub(crate) enum Act {
    Open(Bay, u32, u32, Result<(), Refusal>),
    Put(Bay, Item, Result<u32, Refusal>),
    Take(Bay, Result<u32, Refusal>),
    Step(Bay, Result<Stepped, Refusal>),
    /// So many steps, the last of which leaves the bay's call at the line.
    Reach(Bay, usize, Line),
    /// Steps until the bay's call ends.
    Finish(Bay, Outcome),
    /// A put from its start until it is collected.
    PutWhole(Bay, Item, Outcome),
    /// A take from its start until it is collected and its receipt, if any, is waived: TAKEN with this
    /// element in the tray, or EMPTY.
    TakeWhole(Bay, Option<Item>),
    Close(Closing),
    Look(Look),
}

/// A call after which a bay may be free, or its receipt out.
#[derive(Clone, Copy)]
pub(crate) enum Closing {
    Collect(Bay, u32, Result<Outcome, Refusal>),
    Abandon(Bay, u32, Result<Abandoned, Refusal>),
    /// Enters the receipt in hand.
    Enter(Result<(), Refusal>),
    /// Waives the receipt in hand.
    Waive(Result<(), Refusal>),
}

/// What the caller keeps, as it is to be from here on, or as it is due to be.
#[derive(Clone, Copy)]
pub(crate) enum Look {
    /// So many trays are handed over from here on.
    Trays(usize),
    /// So many are entered in the book from here on.
    Book(usize),
    /// What lies in the bay's tray.
    Tray(Bay, Item),
    /// What stands in the book's row.
    Row(usize, Item),
    /// How many are entered in the book.
    Entered(usize),
}

/// Calls, and what they are made with.
#[derive(Clone, Copy)]
pub(crate) struct Table<'a> {
    /// What it is called in the message of an answer that is another, with its number among its like.
    pub(crate) name: &'static str,
    pub(crate) number: usize,
    pub(crate) slots: usize,
    pub(crate) trays: usize,
    /// The book's length.
    pub(crate) book: usize,
    pub(crate) acts: &'a [Act],
}

impl Table<'_> {
    // The calls on a new dock over the memory.
    fn run_over<M: SlotMemory + Drop>(
        self,
        rt: &(impl Abort + AllocGlobal),
        name: &'static str,
        memory: M,
    ) -> Result<(), AllocError>
    where
        M::Element: Sample,
    {
        let desk = Desk::new(rt.alloc(), self.trays, self.book)?;
        let mut judge = Judge::new(rt, self.name, self.number, M::Element::NAME, name);
        let mut bench = Bench::new(memory, desk);
        bench.play(&mut judge, self.acts);
        bench.end();
        Ok(())
    }

    // The calls over each of the memories in turn, which are lent the same slots.
    fn run_on<E: Sample>(self, rt: &(impl Abort + AllocGlobal)) -> Result<(), AllocError> {
        let mut slots = vec![in rt.alloc(); Some(E::of(Item::Old)); self.slots]?;
        self.run_over(rt, "mark", MarkMemory::new(slots.as_mut_slice()))?;
        self.run_over(rt, "row", RowMemory::new(slots.as_mut_slice()))
    }

    /// Makes the calls on words and on visits, each over both memories.
    pub(crate) fn run(self, rt: &(impl Abort + AllocGlobal)) -> Result<(), AllocError> {
        self.run_on::<u32>(rt)?;
        self.run_on::<Visit>(rt)
    }
}
