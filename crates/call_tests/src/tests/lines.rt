// A reader is pulled out of its bay at each of the eighteen lines, and the others go on.
use crate::elements::Item::*;
use crate::table::Act::*;
use crate::table::Closing::*;
use crate::table::Look::*;
use crate::table::{Act, Table};
use dock_rules::Line::*;
use dock_rules::Outcome::*;
use dock_rules::{Abandoned, Line};
use std::alloc::AllocError;

// What becomes of the call that was held. An enum, since each way sets three acts of a table.
#[derive(Clone, Copy)]
enum Way {
    // its reader never comes back
    Lost,
    // it is given up
    GivenUp,
    // it goes on after the others
    Back,
}

// A line; how many steps of a call lead to it, alone or beside a call that was held at line 16; and
// what becomes of a call that is given up there. A tuple, since a row with its fields' names would take
// six lines; the flag says only whether the other call is there, whose line is always the same.
type Held = (Line, usize, bool, Abandoned);

static PUTS: [Held; 9] = [
    (E5, 0, false, Abandoned::Untouched),
    (E6, 1, false, Abandoned::Untouched),
    (E9, 2, false, Abandoned::Untouched),
    (E10, 3, false, Abandoned::Untouched),
    (E12, 4, true, Abandoned::Untouched),
    (E13, 5, true, Abandoned::Untouched),
    (E15, 4, false, Abandoned::Untouched),
    (E16, 5, false, Abandoned::Stored),
    (E17, 6, false, Abandoned::Stored),
];

static TAKES: [Held; 9] = [
    (D5, 0, false, Abandoned::Untouched),
    (D6, 1, false, Abandoned::Untouched),
    (D9, 2, false, Abandoned::Untouched),
    (D10, 3, false, Abandoned::Untouched),
    (D12, 4, true, Abandoned::Untouched),
    (D13, 5, true, Abandoned::Untouched),
    (D15, 4, false, Abandoned::Untouched),
    (D16, 5, false, Abandoned::Taken),
    (D17, 6, false, Abandoned::Taken),
];

// A put at bay 0 is held; bay 1 puts B, and bay 2 takes what was stored, in its order. The put at bay 3
// has stored C and not moved Tail, or has not begun.
fn held_put((line, steps, beside, left): Held, way: Way) -> [Act; 12] {
    let (before, reached) = if beside { (5, E16) } else { (0, E5) };
    let (first, second, missing) = match left {
        _ if beside => (Some(C), Some(B), Some(A)),
        Abandoned::Stored => (Some(A), Some(B), None),
        _ => (Some(B), None, Some(A)),
    };
    let given_up = match way {
        Way::GivenUp => Close(Abandon(0, 2, Ok(left))),
        Way::Lost | Way::Back => Look(Tray(0, A)),
    };
    let (end, last) = match way {
        Way::Back => (Finish(0, Stored), TakeWhole(2, missing)),
        Way::GivenUp | Way::Lost => (Look(Tray(0, A)), TakeWhole(2, None)),
    };
    [
        Open(4, 20, u32::MAX, Ok(())),
        Put(3, C, Ok(1)),
        Reach(3, before, reached),
        Put(0, A, Ok(2)),
        Reach(0, steps, line),
        given_up,
        PutWhole(1, B, Stored),
        TakeWhole(2, first),
        TakeWhole(2, second),
        TakeWhole(2, None),
        end,
        last,
    ]
}

// As `held_put`, of which each row differs: a take at bay 0 is held, with A and B in the ring; bay 1 puts C,
// and bay 2 takes what is left, in its order. The take at bay 3 has emptied A's slot and not moved Head, or
// has not begun.
fn held_take((line, steps, beside, left): Held, way: Way) -> [Act; 15] {
    let (before, reached) = if beside { (5, D16) } else { (0, D5) };
    let (first, second, third) = match left {
        Abandoned::Untouched if !beside => (A, B, Some(C)),
        _ => (B, C, None),
    };
    let given_up = match way {
        Way::GivenUp => Close(Abandon(0, 4, Ok(left))),
        Way::Lost | Way::Back => Look(Entered(0)),
    };
    let end = match (way, left) {
        (Way::Back, Abandoned::Taken) => Finish(0, Taken),
        (Way::Back, _) => Finish(0, Empty),
        (Way::GivenUp | Way::Lost, _) => Look(Entered(0)),
    };
    let last = match left {
        Abandoned::Taken => Look(Tray(0, A)),
        _ => Look(Entered(0)),
    };
    [
        Open(4, 20, u32::MAX, Ok(())),
        PutWhole(1, A, Stored),
        PutWhole(1, B, Stored),
        Take(3, Ok(3)),
        Reach(3, before, reached),
        Take(0, Ok(4)),
        Reach(0, steps, line),
        given_up,
        PutWhole(1, C, Stored),
        TakeWhole(2, Some(first)),
        TakeWhole(2, Some(second)),
        TakeWhole(2, third),
        TakeWhole(2, None),
        end,
        last,
    ]
}

// A row of the puts or of the takes, with a ring of four slots.
fn held<'a>(name: &'static str, number: usize, acts: &'a [Act]) -> Table<'a> {
    Table {
        name,
        number,
        slots: 4,
        trays: 4,
        book: 0,
        acts,
    }
}

#[test]
fn pulled_out_at_every_line(rt: HostRuntime) -> Result<(), AllocError> {
    for (way, put, take) in [
        (Way::Lost, "lost put", "lost take"),
        (Way::GivenUp, "put given up", "take given up"),
        (Way::Back, "put gone on", "take gone on"),
    ] {
        for (i, row) in PUTS.iter().enumerate() {
            held(put, i, &held_put(*row, way)).run(&rt)?;
        }
        for (i, row) in TAKES.iter().enumerate() {
            held(take, i, &held_take(*row, way)).run(&rt)?;
        }
    }
    Ok(())
}
