// What a table is made of, and how it is run.
use mark_memory::MarkMemory;
use row_memory::RowMemory;
use slot_memory::{Bay, Index, SlotMemory, Stored};
use std::fmt::Debug;
use std::process::Abort;

/// One operation, and the reply that is due.
// Data and no closure, since one table is run over both memories, and a closure would take one of them alone.
#[derive(Clone, Copy)]
pub(crate) enum Step<E: Copy> {
    Clear(u32),
    Read(Index, u32),
    Slot(Bay, u32, Option<E>),
    Index(Bay, Index, u32),
    Fill(Bay, u32, E, Stored),
    Empty(Bay, u32, Stored),
    Store(Bay, Index, u32, Stored),
}

/// Where a test stands, for the message of a reply that is another. Each crate of tests has its own: what
/// a crate has for its tests alone no other crate can use.
#[derive(Drop)]
struct Judge<'a, R: Abort> {
    rt: &'a R,
    elements: &'static str,
    memory: &'static str,
    step: usize,
}

impl<R: Abort> Judge<'_, R> {
    // The test ends here unless the two are equal.
    fn same<T: Copy + PartialEq + Debug>(&self, got: T, due: T) {
        let Judge {
            elements,
            memory,
            step,
            ..
        } = self;
        assert_eq!(self.rt;
            got,
            due,
            "on {elements}, over the {memory} memory, step {step}"
        );
    }

    fn take<M: SlotMemory>(&self, memory: &mut M, step: Step<M::Element>)
    where
        M::Element: PartialEq + Debug,
    {
        match step {
            Step::Clear(base) => memory.clear(base),
            Step::Read(index, due) => self.same(memory.read(index), due),
            Step::Slot(bay, slot, due) => self.same(memory.mark_slot(bay, slot), due),
            Step::Index(bay, index, due) => self.same(memory.mark_index(bay, index), due),
            Step::Fill(bay, slot, element, due) => {
                self.same(memory.store_slot(bay, slot, Some(element)), due)
            }
            Step::Empty(bay, slot, due) => self.same(memory.store_slot(bay, slot, None), due),
            Step::Store(bay, index, number, due) => {
                self.same(memory.store_index(bay, index, number), due)
            }
        }
    }

    // Takes the steps in their order.
    fn run<M: SlotMemory>(&mut self, memory: &mut M, steps: &[Step<M::Element>])
    where
        M::Element: PartialEq + Debug,
    {
        for (i, step) in steps.iter().enumerate() {
            self.step = i;
            self.take(memory, *step);
        }
    }
}

/// Takes the first steps over a mark memory, then the others over a row memory that is lent the same
/// slots. The first whose reply is another is named in the message.
pub(crate) fn over_each<E: Copy + PartialEq + Debug>(
    rt: &impl Abort,
    elements: &'static str,
    slots: &mut [Option<E>],
    over_marks: &[Step<E>],
    over_rows: &[Step<E>],
) {
    let mut judge = Judge {
        rt,
        elements,
        memory: "mark",
        step: 0,
    };
    judge.run(&mut MarkMemory::new(slots), over_marks);
    judge.memory = "row";
    judge.run(&mut RowMemory::new(slots), over_rows);
}

/// Takes the same steps over either memory.
pub(crate) fn over_both<E: Copy + PartialEq + Debug>(
    rt: &impl Abort,
    elements: &'static str,
    slots: &mut [Option<E>],
    steps: &[Step<E>],
) {
    over_each(rt, elements, slots, steps, steps)
}
