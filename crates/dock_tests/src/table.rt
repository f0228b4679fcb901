// What a table is made of, and how it is run.
use dock::Dock;
use dock_rules::{Refusal, Stepped};
use mark_memory::MarkMemory;
use row_memory::RowMemory;
use slot_memory::{Bay, SlotMemory};
use std::fmt::Debug;
use std::process::Abort;

/// One call, and the answer that is due.
// Data and no closure, since one table is run over both memories, and a closure would take one of them alone.
#[derive(Clone, Copy)]
pub(crate) enum Act<E: Copy> {
    Open(Bay, u32, u32, Result<(), Refusal>),
    Put(Bay, E, Result<u32, Refusal>),
    Take(Bay, Result<u32, Refusal>),
    Step(Bay, Result<Stepped, Refusal>),
}

/// Where a test stands, for the message of an answer that is another: the table and its
/// elements, the memory, and the number of the call. Each crate of tests has its own: what a crate has for
/// its tests alone no other crate can use.
#[derive(Drop)]
struct Judge<'a, R: Abort> {
    rt: &'a R,
    name: &'static str,
    memory: &'static str,
    call: usize,
}

impl<R: Abort> Judge<'_, R> {
    // The test ends here unless the two are equal.
    fn same<T: Copy + PartialEq + Debug>(&self, got: T, due: T) {
        let Judge {
            name,
            memory,
            call,
            ..
        } = self;
        assert_eq!(self.rt; got, due, "{name}, over the {memory} memory, call {call}");
    }

    fn make<M: SlotMemory>(
        &self,
        dock: &mut Dock<M>,
        trays: &mut [M::Element],
        act: Act<M::Element>,
    ) {
        match act {
            Act::Open(bays, lifetime, base, due) => {
                self.same(dock.open(bays, lifetime, base), due)
            }
            Act::Put(bay, element, due) => self.same(dock.put(bay, element, trays), due),
            Act::Take(bay, due) => self.same(dock.take(bay), due),
            Act::Step(bay, due) => self.same(dock.step(bay, trays), due),
        }
    }

    // Makes the calls in their order on a new dock.
    fn run<M: SlotMemory + Drop>(
        &mut self,
        memory: M,
        trays: &mut [M::Element],
        acts: &[Act<M::Element>],
    ) {
        let mut dock = Dock::new(memory);
        for (i, act) in acts.iter().enumerate() {
            self.call = i;
            self.make(&mut dock, trays, *act);
        }
    }
}

/// Makes the calls on a new dock over each memory in turn, which is lent the slots. The first whose
/// answer is another is named in the message.
pub(crate) fn over_both<E: Copy>(
    rt: &impl Abort,
    name: &'static str,
    slots: &mut [Option<E>],
    trays: &mut [E],
    acts: &[Act<E>],
) {
    let mut judge = Judge {
        rt,
        name,
        memory: "mark",
        call: 0,
    };
    judge.run(MarkMemory::new(slots), trays, acts);
    judge.memory = "row";
    judge.run(RowMemory::new(slots), trays, acts);
}
