// The tables.
use crate::table::Act::*;
use crate::table::{Act, over_both};
use dock_rules::Line::*;
use dock_rules::Outcome::*;
use dock_rules::Refusal;
use dock_rules::Stepped::*;
use visit::Visit;

// These two stand in `memory_tests` too: they are values of tests, and no part of what `visit` is for.
const EARLY: Visit = Visit {
    guard: 1,
    checkpoint: 2,
    minute: 0,
};

const LATE: Visit = Visit {
    minute: 1439,
    ..EARLY
};

// A ring of one slot, four trays, and indices that come round. `call_tests` has these rows and those below too, over
// its own acts; each test stays.
fn rounds<E: Copy>(a: E, b: E) -> [Act<E>; 40] {
    [
        Open(4, 5, u32::MAX, Ok(())),
        // a take finds the ring empty
        Take(3, Ok(1)),
        Step(3, Ok(At(D6))),
        Step(3, Ok(Ended(Empty))),
        // a put stores, and is held before its last line
        Put(0, a, Ok(2)),
        Step(0, Ok(At(E6))),
        Step(0, Ok(At(E9))),
        Step(0, Ok(At(E10))),
        Step(0, Ok(At(E15))),
        Step(0, Ok(At(E16))),
        Step(0, Ok(At(E17))),
        // another sees the slot filled, and brings Tail forward for it
        Put(1, b, Ok(3)),
        Step(1, Ok(At(E6))),
        Step(1, Ok(At(E9))),
        Step(1, Ok(At(E10))),
        Step(1, Ok(At(E12))),
        Step(1, Ok(At(E13))),
        Step(1, Ok(At(E5))),
        // then it finds the ring full
        Step(1, Ok(At(E6))),
        Step(1, Ok(Ended(Full))),
        // the held store is refused, and the line before it ends the call
        Step(0, Ok(At(E16))),
        Step(0, Ok(Ended(Stored))),
        // a take empties the slot
        Take(2, Ok(4)),
        Step(2, Ok(At(D6))),
        Step(2, Ok(At(D9))),
        Step(2, Ok(At(D10))),
        Step(2, Ok(At(D15))),
        Step(2, Ok(At(D16))),
        Step(2, Ok(At(D17))),
        Step(2, Ok(Ended(Taken))),
        // an ended call takes no step, and its bay is not free before it is collected
        Step(0, Err(Refusal::Idle)),
        Step(2, Err(Refusal::Idle)),
        Put(0, b, Err(Refusal::Busy)),
        Take(2, Err(Refusal::Busy)),
        Put(3, b, Err(Refusal::Busy)),
        // the first reason that applies is given
        Open(0, 0, 0, Err(Refusal::Open)),
        Step(4, Err(Refusal::Bay)),
        Put(4, b, Err(Refusal::Bay)),
        Take(4, Err(Refusal::Bay)),
        Step(15, Err(Refusal::Bay)),
    ]
}

#[test]
fn one_slot(rt: HostRuntime) {
    over_both(
        &rt,
        "rounds of words",
        &mut [Some(77)],
        &mut [0; 4],
        &rounds(5u32, 6),
    );
    over_both(
        &rt,
        "rounds of visits",
        &mut [Some(LATE)],
        &mut [LATE; 4],
        &rounds(EARLY, LATE),
    );
}

// What a dock answers before it is open, whatever its memory.
fn shut<E: Copy>(a: E) -> [Act<E>; 9] {
    [
        Put(0, a, Err(Refusal::Shut)),
        Take(0, Err(Refusal::Shut)),
        Step(16, Err(Refusal::Shut)),
        Open(0, 0, 7, Err(Refusal::Bays)),
        Open(17, 1, 7, Err(Refusal::Bays)),
        Open(1, 0, 7, Err(Refusal::Life)),
        Open(16, 2147483649, 7, Err(Refusal::Life)),
        Take(0, Err(Refusal::Shut)),
        Open(16, 2147483648, 7, Ok(())),
    ]
}

#[test]
fn refused_while_shut(rt: HostRuntime) {
    over_both(&rt, "shut", &mut [Some(77); 8], &mut [0; 4], &shut(5u32));
}

#[test]
fn lengths_refused(rt: HostRuntime) {
    let refused = [
        Open(0, 0, 7, Err(Refusal::Length)),
        Take(0, Err(Refusal::Shut)),
    ];
    over_both(
        &rt,
        "three slots",
        &mut [Some(77u32); 3],
        &mut [0],
        &refused,
    );
    over_both(&rt, "no slots", &mut [], &mut [0u32], &refused);
}

#[test]
fn trays_counted(rt: HostRuntime) {
    // four trays are too few for five bays, and the reason goes before the bay's
    let few = [
        Open(5, 1, 7, Ok(())),
        Put(9, 1u32, Err(Refusal::Trays)),
        Step(9, Err(Refusal::Trays)),
        Take(9, Err(Refusal::Bay)),
    ];
    let many = [
        Open(3, 1, 7, Ok(())),
        Put(0, 1u32, Err(Refusal::Trays)),
        Step(0, Err(Refusal::Trays)),
    ];
    over_both(&rt, "few trays", &mut [None; 2], &mut [0; 4], &few);
    over_both(&rt, "many trays", &mut [None; 2], &mut [0; 4], &many);
}

#[test]
fn worn_out(rt: HostRuntime) {
    let acts = [
        Open(2, 1, 7, Ok(())),
        Step(1, Err(Refusal::Idle)),
        Put(0, 9u32, Ok(1)),
        // a bay under way is busy, worn out or not
        Take(0, Err(Refusal::Busy)),
        Take(1, Err(Refusal::Worn)),
        Put(1, 9, Err(Refusal::Worn)),
    ];
    over_both(&rt, "worn out", &mut [None; 2], &mut [0; 2], &acts);
}
