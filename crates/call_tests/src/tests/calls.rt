// Puts and takes, line by line.
ghost use Rattle.std.specs.Prelude.{◌<◌};

use crate::elements::Item::*;
use crate::table::Act::*;
use crate::table::Closing::*;
use crate::table::Look::*;
use crate::table::{Act, Table};
use dock_rules::Line::*;
use dock_rules::Outcome::*;
use dock_rules::Refusal;
use dock_rules::Stepped::*;
use slot_memory::Bay;
use std::alloc::AllocError;

// A ring of one slot, four trays, and indices that come round.
static ROUNDS: Table = Table {
    name: "rounds",
    number: 0,
    slots: 1,
    trays: 4,
    book: 0,
    acts: &[
        Open(4, 5, u32::MAX, Ok(())),
        // a take finds the ring empty
        Take(3, Ok(1)),
        Step(3, Ok(At(D6))),
        Step(3, Ok(Ended(Empty))),
        // a put stores, and is held before its last line
        Put(0, A, Ok(2)),
        Step(0, Ok(At(E6))),
        Step(0, Ok(At(E9))),
        Step(0, Ok(At(E10))),
        Step(0, Ok(At(E15))),
        Step(0, Ok(At(E16))),
        Step(0, Ok(At(E17))),
        // another sees the slot filled, and brings Tail forward for it
        Put(1, B, Ok(3)),
        Step(1, Ok(At(E6))),
        Step(1, Ok(At(E9))),
        Step(1, Ok(At(E10))),
        Step(1, Ok(At(E12))),
        Step(1, Ok(At(E13))),
        Step(1, Ok(At(E5))),
        // then it finds the ring full
        Step(1, Ok(At(E6))),
        Step(1, Ok(Ended(Full))),
        // the held store is refused, and the line before it ends the call
        Step(0, Ok(At(E16))),
        Step(0, Ok(Ended(Stored))),
        // a take empties the slot
        Take(2, Ok(4)),
        Step(2, Ok(At(D6))),
        Step(2, Ok(At(D9))),
        Step(2, Ok(At(D10))),
        Step(2, Ok(At(D15))),
        Step(2, Ok(At(D16))),
        Step(2, Ok(At(D17))),
        Step(2, Ok(Ended(Taken))),
        // an ended call takes no step, and its bay is not free before it is collected
        Step(0, Err(Refusal::Idle)),
        Step(2, Err(Refusal::Idle)),
        Put(0, B, Err(Refusal::Busy)),
        Take(2, Err(Refusal::Busy)),
        Put(3, B, Err(Refusal::Busy)),
        // the first reason that applies is given
        Open(0, 0, 0, Err(Refusal::Open)),
        Step(4, Err(Refusal::Bay)),
        Put(4, B, Err(Refusal::Bay)),
        Take(4, Err(Refusal::Bay)),
        Step(15, Err(Refusal::Bay)),
    ],
};

#[test]
fn one_slot(rt: HostRuntime) -> Result<(), AllocError> {
    ROUNDS.run(&rt)
}

// A ring of two slots whose indices come round: it is full with two elements, and gives them in order.
static AROUND: Table = Table {
    name: "around",
    number: 0,
    slots: 2,
    trays: 2,
    book: 0,
    acts: &[
        Open(2, 20, u32::MAX, Ok(())),
        PutWhole(0, A, Stored),
        PutWhole(0, B, Stored),
        PutWhole(0, C, Full),
        TakeWhole(1, Some(A)),
        PutWhole(0, C, Stored),
        PutWhole(0, A, Full),
        TakeWhole(1, Some(B)),
        TakeWhole(1, Some(C)),
        TakeWhole(1, None),
        PutWhole(1, B, Stored),
        TakeWhole(0, Some(B)),
        TakeWhole(0, None),
    ],
};

// A lifetime of one call.
static ONE_CALL: Table = Table {
    name: "one call",
    number: 0,
    slots: 1,
    trays: 1,
    book: 0,
    acts: &[
        Open(1, 1, u32::MAX, Ok(())),
        Put(0, A, Ok(1)),
        Take(0, Err(Refusal::Busy)),
        Finish(0, Stored),
        Close(Collect(0, 1, Ok(Stored))),
        Put(0, B, Err(Refusal::Worn)),
        Take(0, Err(Refusal::Worn)),
        Open(1, 1, u32::MAX, Err(Refusal::Open)),
        Look(Tray(0, A)),
    ],
};

// So many bays, all of them under way at once, with as many trays.
fn many(bays: Bay) -> [Act; 22]
    requires { 0 < bays }
{
    let last = bays - 1;
    let past = bays as usize + 1;
    [
        Open(bays, 6, u32::MAX, Ok(())),
        Look(Trays(past)),
        Put(last, A, Err(Refusal::Trays)),
        Step(last, Err(Refusal::Trays)),
        Look(Trays(last as usize)),
        Put(last, A, Err(Refusal::Trays)),
        Look(Trays(bays as usize)),
        Put(bays, A, Err(Refusal::Bay)),
        Put(last, A, Ok(1)),
        Put(0, B, Ok(2)),
        Reach(last, 5, E16),
        Reach(0, 5, E13),
        Finish(last, Stored),
        Finish(0, Stored),
        Close(Collect(last, 1, Ok(Stored))),
        Take(last, Ok(3)),
        Finish(last, Taken),
        Look(Tray(last, A)),
        Close(Collect(last, 3, Ok(Taken))),
        Close(Enter(Ok(()))),
        Look(Row(0, A)),
        TakeWhole(last, Some(B)),
    ]
}

#[test]
fn at_the_limits(rt: HostRuntime) -> Result<(), AllocError> {
    AROUND.run(&rt)?;
    ONE_CALL.run(&rt)?;
    for bays in [15, 16] {
        let table = Table {
            name: "bays",
            number: bays as usize,
            slots: 8,
            trays: 17,
            book: 1,
            acts: &many(bays),
        };
        table.run(&rt)?;
    }
    Ok(())
}
