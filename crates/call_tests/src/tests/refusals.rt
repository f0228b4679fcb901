// Every reason for which a call is turned down, alone and with each later one that can apply at once.
// A call that is turned down alters nothing, so the run goes on between.
use crate::elements::Item::*;
use crate::table::Act::*;
use crate::table::Closing::*;
use crate::table::Look::*;
use crate::table::Table;
use dock_rules::Outcome::*;
use dock_rules::{Abandoned, Refusal};
use std::alloc::AllocError;

const LONGEST_LIFE: u32 = 2147483648;

// A dock that is not open has no bays, and its lifetime is over: every reason but BUSY applies with SHUT.
static SHUT: Table = Table {
    name: "shut",
    number: 0,
    slots: 8,
    trays: 4,
    book: 0,
    acts: &[
        Put(0, A, Err(Refusal::Shut)),
        Take(0, Err(Refusal::Shut)),
        Step(0, Err(Refusal::Shut)),
        Close(Collect(0, 0, Err(Refusal::Shut))),
        Close(Abandon(0, 0, Err(Refusal::Shut))),
        // no trays are as many as there are bays
        Look(Trays(0)),
        Put(16, A, Err(Refusal::Shut)),
        Step(16, Err(Refusal::Shut)),
        // the number of bays, alone and with the lifetime
        Open(0, 1, 7, Err(Refusal::Bays)),
        Open(17, LONGEST_LIFE, 7, Err(Refusal::Bays)),
        Open(0, 0, 7, Err(Refusal::Bays)),
        Open(17, LONGEST_LIFE + 1, 7, Err(Refusal::Bays)),
        Open(1, 0, 7, Err(Refusal::Life)),
        Open(16, LONGEST_LIFE + 1, 7, Err(Refusal::Life)),
        Open(1, u32::MAX, 7, Err(Refusal::Life)),
        // the dock is still shut
        Take(0, Err(Refusal::Shut)),
        Open(16, LONGEST_LIFE, 7, Ok(())),
        Take(15, Ok(1)),
        Take(16, Err(Refusal::Bay)),
        Open(16, LONGEST_LIFE, 7, Err(Refusal::Open)),
    ],
};

#[test]
fn before_the_dock_is_open(rt: HostRuntime) -> Result<(), AllocError> {
    SHUT.run(&rt)
}

// A memory whose length is no power of two: that reason goes before the numbers of bays and of calls.
static WRONG_LENGTH: Table = Table {
    name: "wrong length",
    number: 0,
    slots: 0,
    trays: 1,
    book: 0,
    acts: &[
        Open(1, 1, 7, Err(Refusal::Length)),
        Open(0, 1, 7, Err(Refusal::Length)),
        Open(1, 0, 7, Err(Refusal::Length)),
        Open(17, 0, 7, Err(Refusal::Length)),
        Take(0, Err(Refusal::Shut)),
    ],
};

static RIGHT_LENGTH: Table = Table {
    name: "right length",
    number: 0,
    slots: 0,
    trays: 1,
    book: 0,
    acts: &[Open(1, 1, 7, Ok(()))],
};

// The number of slots is the row's number in messages.
#[test]
fn lengths(rt: HostRuntime) -> Result<(), AllocError> {
    for (slots, trays) in [(0, 1), (3, 1), (5, 1), (6, 1), (7, 1), (1025, 0)] {
        let table = Table {
            number: slots,
            slots,
            trays,
            ..WRONG_LENGTH
        };
        table.run(&rt)?;
    }
    for (slots, trays) in [(1, 1), (2, 1), (4, 1), (8, 1), (1024, 0)] {
        let table = Table {
            number: slots,
            slots,
            trays,
            ..RIGHT_LENGTH
        };
        table.run(&rt)?;
    }
    Ok(())
}

// Two bays and a lifetime of three calls.
static OPEN: Table = Table {
    name: "open",
    number: 0,
    slots: 2,
    trays: 4,
    book: 0,
    acts: &[
        Open(2, 3, u32::MAX, Ok(())),
        // the dock is open: alone, and with the number of bays and the lifetime
        Open(1, 1, 7, Err(Refusal::Open)),
        Open(0, 1, 7, Err(Refusal::Open)),
        Open(1, 0, 7, Err(Refusal::Open)),
        Open(17, LONGEST_LIFE + 1, 7, Err(Refusal::Open)),
        // too few and too many trays: alone, and with the bay or with no call under way
        Look(Trays(1)),
        Put(0, A, Err(Refusal::Trays)),
        Put(2, A, Err(Refusal::Trays)),
        Step(0, Err(Refusal::Trays)),
        Step(2, Err(Refusal::Trays)),
        Look(Trays(3)),
        Put(0, A, Err(Refusal::Trays)),
        Put(2, A, Err(Refusal::Trays)),
        Step(0, Err(Refusal::Trays)),
        Step(2, Err(Refusal::Trays)),
        Look(Trays(2)),
        // the bay, which has no call either
        Put(2, A, Err(Refusal::Bay)),
        Take(2, Err(Refusal::Bay)),
        Step(2, Err(Refusal::Bay)),
        Close(Collect(2, 0, Err(Refusal::Bay))),
        Close(Abandon(2, 0, Err(Refusal::Bay))),
        Take(15, Err(Refusal::Bay)),
        Take(255, Err(Refusal::Bay)),
        // a free bay
        Step(1, Err(Refusal::Idle)),
        Close(Collect(1, 0, Err(Refusal::Serial))),
        Close(Abandon(1, 1, Err(Refusal::Serial))),
        // a bay under way
        Put(0, A, Ok(1)),
        Put(0, B, Err(Refusal::Busy)),
        Take(0, Err(Refusal::Busy)),
        Close(Collect(0, 1, Err(Refusal::Early))),
        Close(Collect(0, 0, Err(Refusal::Serial))),
        Close(Collect(0, 2, Err(Refusal::Serial))),
        Close(Abandon(0, 0, Err(Refusal::Serial))),
        Close(Abandon(0, 2, Err(Refusal::Serial))),
        Close(Collect(1, 1, Err(Refusal::Serial))),
        Close(Abandon(1, 1, Err(Refusal::Serial))),
        Look(Trays(1)),
        Put(0, B, Err(Refusal::Trays)),
        Step(0, Err(Refusal::Trays)),
        Look(Trays(2)),
        Look(Tray(0, A)),
        Finish(0, Stored),
        // a call that has ended
        Step(0, Err(Refusal::Idle)),
        Put(0, B, Err(Refusal::Busy)),
        Take(0, Err(Refusal::Busy)),
        Close(Abandon(0, 1, Err(Refusal::Late))),
        Close(Abandon(0, 2, Err(Refusal::Serial))),
        Close(Collect(0, 2, Err(Refusal::Serial))),
        Look(Trays(3)),
        Put(0, B, Err(Refusal::Trays)),
        Step(0, Err(Refusal::Trays)),
        Look(Trays(2)),
        Close(Collect(0, 1, Ok(Stored))),
        Close(Collect(0, 1, Err(Refusal::Serial))),
        Close(Abandon(0, 1, Err(Refusal::Serial))),
        // the last call of the lifetime: now the bay goes before it
        Take(1, Ok(2)),
        Put(0, B, Ok(3)),
        Put(0, A, Err(Refusal::Busy)),
        Take(1, Err(Refusal::Busy)),
        Put(2, A, Err(Refusal::Bay)),
        Take(2, Err(Refusal::Bay)),
        Close(Abandon(0, 3, Ok(Abandoned::Untouched))),
        // and on a free bay the trays do
        Put(0, A, Err(Refusal::Worn)),
        Take(0, Err(Refusal::Worn)),
        Look(Trays(1)),
        Put(0, A, Err(Refusal::Trays)),
        Look(Trays(2)),
        Look(Tray(0, B)),
        // of all this the take has seen nothing
        Finish(1, Taken),
        Look(Tray(1, A)),
        Close(Collect(1, 2, Ok(Taken))),
        Take(1, Err(Refusal::Busy)),
        Close(Waive(Ok(()))),
        Take(1, Err(Refusal::Worn)),
    ],
};

#[test]
fn while_the_dock_is_open(rt: HostRuntime) -> Result<(), AllocError> {
    OPEN.run(&rt)
}
