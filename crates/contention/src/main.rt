// Two bays contend for a slot and for an index, over each of the two boards, told in print.
#![tactic(auto)]

use mark_memory::MarkMemory;
use row_memory::RowMemory;
use slot_memory::{Bay, Index, SlotMemory};
use std::fmt::Display;
use std::io;
use visit::Visit;

/// A memory on which two bays contend, and the two elements that they store.
#[derive(Drop)]
struct Stage<'a, R: Print, M: SlotMemory> {
    rt: &'a R,
    memory: M,
    first: M::Element,
    second: M::Element,
}

impl<R: Print, M: SlotMemory> Stage<'_, R, M>
where
    M::Element: Display,
{
    // Marks a slot, and tells what it holds.
    fn look(&mut self, bay: Bay, slot: u32) -> io::Result<()> {
        match self.memory.mark_slot(bay, slot) {
            Some(held) => println!(self.rt; "  Bay {bay} marks slot {slot} and finds {held}."),
            None => println!(self.rt; "  Bay {bay} marks slot {slot} and finds it empty."),
        }
    }

    // Marks an index, and tells what it is.
    fn look_at(&mut self, bay: Bay, index: Index) -> io::Result<()> {
        let number = self.memory.mark_index(bay, index);
        println!(self.rt; "  Bay {bay} marks {index:?} and finds {number}.")
    }

    // Stores an element in a slot, and tells the answer.
    fn fill(&mut self, bay: Bay, slot: u32, element: M::Element) -> io::Result<()> {
        let answer = self.memory.store_slot(bay, slot, Some(element));
        println!(self.rt; "  Bay {bay} stores {element} in slot {slot}: {answer}.")
    }

    // Empties a slot, and tells the answer.
    fn empty(&mut self, bay: Bay, slot: u32) -> io::Result<()> {
        let answer = self.memory.store_slot(bay, slot, None);
        println!(self.rt; "  Bay {bay} empties slot {slot}: {answer}.")
    }

    // Stores a number in an index, and tells the answer.
    fn move_to(&mut self, bay: Bay, index: Index, number: u32) -> io::Result<()> {
        let answer = self.memory.store_index(bay, index, number);
        println!(self.rt; "  Bay {bay} stores {number} in {index:?}: {answer}.")
    }

    // The first store kills the other bay's mark.
    fn one_slot(&mut self) -> io::Result<()> {
        println!(self.rt; " Two bays and one slot:")?;
        self.look(0, 0)?;
        self.look(1, 0)?;
        self.fill(0, 0, self.first)?;
        self.fill(1, 0, self.second)?;
        self.look(1, 0)
    }

    // A board with rows balks at a store beside the one that it accepted.
    fn neighbours(&mut self) -> io::Result<()> {
        println!(self.rt; " A mark on Tail while a store goes into Head:")?;
        self.look_at(0, Index::Tail)?;
        self.look_at(1, Index::Head)?;
        self.move_to(1, Index::Head, 8)?;
        self.move_to(0, Index::Tail, 8)?;
        self.look_at(0, Index::Tail)
    }

    // The slot is empty as it was, and the old mark is dead all the same.
    fn old_mark(&mut self) -> io::Result<()> {
        println!(self.rt; " An old mark on a slot that was filled and emptied again:")?;
        self.look(0, 1)?;
        self.look(1, 1)?;
        self.fill(1, 1, self.first)?;
        self.look(1, 1)?;
        self.empty(1, 1)?;
        self.fill(0, 1, self.second)?;
        self.look(0, 1)
    }

    // Clears the memory, and plays the three scenes.
    fn play(&mut self, name: &str) -> io::Result<()> {
        self.memory.clear(7);
        let slots = self.memory.length();
        println!(self.rt; "The {name} memory, {slots} slots, both indices 7.")?;
        self.one_slot()?;
        self.neighbours()?;
        self.old_mark()
    }
}

// The same scenes over either memory, with any two elements. Each memory is lent the slots.
fn play_both<E: Copy + Display>(
    rt: &impl Print,
    slots: &mut [Option<E>],
    first: E,
    second: E,
) -> io::Result<()> {
    Stage {
        rt,
        memory: MarkMemory::new(slots),
        first,
        second,
    }
    .play("mark")?;
    Stage {
        rt,
        memory: RowMemory::new(slots),
        first,
        second,
    }
    .play("row")
}

fn main(rt: HostRuntime) -> io::Result<()> {
    play_both(&rt, &mut [None; 2], 5u32, 6)?;
    let early = Visit {
        guard: 12,
        checkpoint: 3,
        minute: 610,
    };
    let late = Visit {
        guard: 40,
        checkpoint: 3,
        minute: 611,
    };
    play_both(&rt, &mut [None; 2], early, late)
}
