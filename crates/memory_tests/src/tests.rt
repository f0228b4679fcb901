// The tables.
ghost use Rattle.std.specs.Prelude.{◌<◌};

use crate::table::Step::*;
use crate::table::{Step, over_both, over_each};
use mark_memory::MarkMemory;
use row_memory::RowMemory;
use slot_memory::Index::*;
use slot_memory::Stored::*;
use slot_memory::{SlotMemory, Stored};
use std::alloc::AllocError;
use visit::Visit;

// These two stand in `dock_tests` too: they are values of tests, and no part of what `visit` is for.
const EARLY: Visit = Visit {
    guard: 1,
    checkpoint: 2,
    minute: 0,
};

const LATE: Visit = Visit {
    minute: 1439,
    ..EARLY
};

// What every memory answers, whatever its length.
fn common<E: Copy>(length: u32, a: E, b: E) -> [Step<E>; 30]
    requires { 0 < length }
{
    let last = length - 1;
    let past = length;
    [
        Clear(u32::MAX),
        Read(Tail, u32::MAX),
        Read(Head, u32::MAX),
        // the last slot and the last bay are in range
        Slot(15, last, None),
        Fill(15, last, a, Accepted),
        // a store takes the mark, so the next is not live
        Fill(15, last, b, Refused),
        Slot(0, last, Some(a)),
        // one slot or one bay further is out of range, and alters nothing: bay 0's mark stays
        Slot(0, past, None),
        Slot(16, last, None),
        Index(16, Tail, 0),
        Fill(0, past, b, Refused),
        Empty(0, past, Refused),
        Fill(16, last, b, Refused),
        Empty(16, last, Refused),
        Store(16, Tail, 5, Refused),
        Empty(0, last, Accepted),
        // a bay has one mark: the second takes the place of the first
        Slot(1, last, None),
        Index(1, Tail, u32::MAX),
        Fill(1, last, a, Refused),
        // and that refused store took the mark on Tail too
        Store(1, Tail, 0, Refused),
        Read(Tail, u32::MAX),
        // an index comes round, and a store that writes what was there kills the marks all the same
        Index(2, Head, u32::MAX),
        Index(3, Head, u32::MAX),
        Store(2, Head, u32::MAX, Accepted),
        Store(3, Head, 0, Refused),
        Read(Head, u32::MAX),
        // clear empties what was filled and removes the marks
        Slot(4, last, None),
        Clear(0),
        Fill(4, last, a, Refused),
        Slot(4, last, None),
    ]
}

// Where the two memories part: stores among neighbours. `balked` is what a store on a spoilt mark gets.
fn neighbours<E: Copy>(a: E, balked: Stored) -> [Step<E>; 24] {
    [
        Clear(9),
        // a store in Head, with a mark on Tail
        Index(0, Tail, 9),
        Index(1, Head, 9),
        Store(1, Head, 10, Accepted),
        Store(0, Tail, 10, balked),
        // slots 0 and 3 are in one row
        Slot(0, 0, None),
        Slot(1, 3, None),
        Fill(1, 3, a, Accepted),
        Fill(0, 0, a, balked),
        // slots 3 and 4 are not
        Slot(0, 4, None),
        Slot(1, 3, Some(a)),
        Empty(1, 3, Accepted),
        Fill(0, 4, a, Accepted),
        // a mark made anew is sound
        Slot(0, 1, None),
        Slot(1, 2, None),
        Fill(1, 2, a, Accepted),
        Slot(0, 1, None),
        Fill(0, 1, a, Accepted),
        // a store on the very cell of a spoilt mark kills it
        Slot(0, 5, None),
        Slot(1, 6, None),
        Slot(2, 5, None),
        Fill(1, 6, a, Accepted),
        Fill(0, 5, a, balked),
        Fill(2, 7, a, Refused),
    ]
}

#[test]
fn one_slot(rt: HostRuntime) {
    over_both(&rt, "words", &mut [Some(77)], &common(1, 5u32, 6));
    over_both(&rt, "visits", &mut [Some(LATE)], &common(1, EARLY, LATE));
}

#[test]
fn most_slots(rt: HostRuntime) -> Result<(), AllocError> {
    let mut words = vec![in rt.alloc(); Some(77); 1030]?;
    over_both(&rt, "words", words.as_mut_slice(), &common(1025, 5u32, 6));
    let mut visits = vec![in rt.alloc(); Some(LATE); 1025]?;
    over_both(
        &rt,
        "visits",
        visits.as_mut_slice(),
        &common(1025, EARLY, LATE),
    );
    Ok(())
}

#[test]
fn lengths(rt: HostRuntime) -> Result<(), AllocError> {
    for (lent, due) in [
        (0, 0),
        (1, 1),
        (1023, 1023),
        (1024, 1024),
        (1025, 1025),
        (1026, 1025),
        (4000, 1025),
    ] {
        let mut row = vec![in rt.alloc(); None; lent]?;
        let marks = MarkMemory::<u32>::new(row.as_mut_slice());
        assert_eq!(rt;
            marks.length(),
            due,
            "of {lent} lent slots, over the mark memory"
        );
        let rows = RowMemory::<u32>::new(row.as_mut_slice());
        assert_eq!(rt;
            rows.length(),
            due,
            "of {lent} lent slots, over the row memory"
        );
    }
    Ok(())
}

#[test]
fn slots_in_rows(rt: HostRuntime) {
    over_each(
        &rt,
        "words",
        &mut [None; 8],
        &neighbours(5u32, Accepted),
        &neighbours(5, Refused),
    );
    over_each(
        &rt,
        "visits",
        &mut [None; 8],
        &neighbours(EARLY, Accepted),
        &neighbours(EARLY, Refused),
    );
}
