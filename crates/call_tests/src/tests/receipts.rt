// How calls are collected and abandoned, and what becomes of their receipts.
use crate::elements::Item::*;
use crate::table::Act::*;
use crate::table::Closing::*;
use crate::table::Look::*;
use crate::table::{Act, Table};
use dock_rules::Line::*;
use dock_rules::Outcome::*;
use dock_rules::{Abandoned, Refusal};
use std::alloc::AllocError;

// A ring of one slot, two bays, and a book of three places.
static COLLECTED: Table = Table {
    name: "collected",
    number: 0,
    slots: 1,
    trays: 2,
    book: 3,
    acts: &[
        Open(2, 20, u32::MAX, Ok(())),
        // each way in which a call ends
        Take(1, Ok(1)),
        Finish(1, Empty),
        Close(Collect(1, 1, Ok(Empty))),
        Put(0, A, Ok(2)),
        Finish(0, Stored),
        Close(Collect(0, 2, Ok(Stored))),
        Close(Collect(0, 2, Err(Refusal::Serial))),
        Put(0, B, Ok(3)),
        Finish(0, Full),
        Close(Collect(0, 3, Ok(Full))),
        Take(1, Ok(4)),
        Close(Collect(1, 4, Err(Refusal::Early))),
        Finish(1, Taken),
        Close(Abandon(1, 4, Err(Refusal::Late))),
        Close(Collect(1, 4, Ok(Taken))),
        // while the receipt is out the bay is not free, and has no call
        Put(1, B, Err(Refusal::Busy)),
        Take(1, Err(Refusal::Busy)),
        Step(1, Err(Refusal::Idle)),
        Close(Collect(1, 4, Err(Refusal::Serial))),
        Close(Abandon(1, 4, Err(Refusal::Serial))),
        // the other bay goes on
        PutWhole(0, B, Stored),
        Look(Tray(1, A)),
        Look(Row(0, Blank)),
        // the element comes to the end of the book, and the bay is free
        Close(Enter(Ok(()))),
        Look(Row(0, A)),
        Look(Row(1, Blank)),
        Look(Entered(1)),
        Step(1, Err(Refusal::Idle)),
        Close(Collect(1, 4, Err(Refusal::Serial))),
        Take(1, Ok(6)),
        Finish(1, Taken),
        Close(Collect(1, 6, Ok(Taken))),
        Take(1, Err(Refusal::Busy)),
        // a waived receipt frees the bay too, and nothing is entered
        Close(Waive(Ok(()))),
        Look(Row(1, Blank)),
        Look(Entered(1)),
        Put(1, A, Ok(7)),
        Close(Collect(1, 7, Err(Refusal::Early))),
    ],
};

static ABANDONED: Table = Table {
    name: "abandoned",
    number: 0,
    slots: 1,
    trays: 2,
    book: 3,
    acts: &[
        Open(2, 20, u32::MAX, Ok(())),
        // before its first step, and before the store
        Put(0, A, Ok(1)),
        Close(Abandon(0, 1, Ok(Abandoned::Untouched))),
        Close(Abandon(0, 1, Err(Refusal::Serial))),
        Put(0, B, Ok(2)),
        Reach(0, 4, E15),
        Close(Abandon(0, 2, Ok(Abandoned::Untouched))),
        TakeWhole(1, None),
        // after the store: a put finds the element, brings Tail forward, and sees that the ring is full
        Put(0, C, Ok(4)),
        Reach(0, 5, E16),
        Close(Abandon(0, 4, Ok(Abandoned::Stored))),
        Close(Abandon(0, 4, Err(Refusal::Serial))),
        Close(Collect(0, 4, Err(Refusal::Serial))),
        Step(0, Err(Refusal::Idle)),
        PutWhole(0, A, Full),
        // a take before it empties the slot
        Take(1, Ok(6)),
        Reach(1, 4, D15),
        Close(Abandon(1, 6, Ok(Abandoned::Untouched))),
        // and after
        Take(1, Ok(7)),
        Reach(1, 6, D17),
        Close(Abandon(1, 7, Ok(Abandoned::Taken))),
        Look(Tray(1, C)),
        Put(1, B, Err(Refusal::Busy)),
        Take(1, Err(Refusal::Busy)),
        Step(1, Err(Refusal::Idle)),
        Close(Collect(1, 7, Err(Refusal::Serial))),
        Close(Abandon(1, 7, Err(Refusal::Serial))),
        Close(Enter(Ok(()))),
        Look(Row(0, C)),
        Look(Entered(1)),
        // what was taken is not taken twice
        TakeWhole(1, None),
    ],
};

#[test]
fn collected_and_abandoned(rt: HostRuntime) -> Result<(), AllocError> {
    COLLECTED.run(&rt)?;
    ABANDONED.run(&rt)
}

// The last place of a book of three, and then another book.
static LAST_PLACE: Table = Table {
    name: "last place",
    number: 0,
    slots: 1,
    trays: 1,
    book: 3,
    acts: &[
        Open(1, 9, u32::MAX, Ok(())),
        PutWhole(0, A, Stored),
        Take(0, Ok(2)),
        Finish(0, Taken),
        Close(Collect(0, 2, Ok(Taken))),
        Look(Book(2)),
        Look(Trays(0)),
        Close(Enter(Err(Refusal::Trays))),
        Look(Trays(1)),
        Look(Row(2, Blank)),
        Look(Entered(2)),
        Close(Enter(Ok(()))),
        Look(Row(0, Blank)),
        Look(Row(1, Blank)),
        Look(Row(2, A)),
        Look(Entered(3)),
        PutWhole(0, B, Stored),
        Take(0, Ok(4)),
        Finish(0, Taken),
        Close(Collect(0, 4, Ok(Taken))),
        Close(Enter(Err(Refusal::Book))),
        Look(Row(2, A)),
        Look(Entered(3)),
        Look(Book(0)),
        Close(Enter(Ok(()))),
        Look(Row(0, B)),
        Look(Row(2, A)),
        Look(Entered(1)),
        Take(0, Ok(5)),
    ],
};

// A book that has no room, with so many entered. Its receipt is waived.
fn no_room(entered: usize) -> [Act; 17] {
    [
        Open(1, 3, u32::MAX, Ok(())),
        Look(Trays(1)),
        PutWhole(0, A, Stored),
        Take(0, Ok(2)),
        Finish(0, Taken),
        Close(Collect(0, 2, Ok(Taken))),
        Look(Book(entered)),
        Close(Enter(Err(Refusal::Book))),
        // the number of trays goes before it
        Look(Trays(2)),
        Close(Enter(Err(Refusal::Trays))),
        Look(Trays(1)),
        Close(Enter(Err(Refusal::Book))),
        Look(Entered(entered)),
        Look(Tray(0, A)),
        Take(0, Err(Refusal::Busy)),
        Close(Waive(Ok(()))),
        Take(0, Ok(3)),
    ]
}

#[test]
fn books(rt: HostRuntime) -> Result<(), AllocError> {
    LAST_PLACE.run(&rt)?;
    let rows = [(3, 3), (3, 4), (3, usize::MAX), (0, 0), (0, 1), (1, 1)];
    for (i, (book, entered)) in rows.iter().copied().enumerate() {
        let table = Table {
            name: "no room",
            number: i,
            slots: 1,
            trays: 2,
            book,
            acts: &no_room(entered),
        };
        table.run(&rt)?;
    }
    Ok(())
}
