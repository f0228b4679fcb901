// Receipts that are handed to another dock. A receipt is known by its bay and serial alone.
use crate::bench::{Bench, Desk};
use crate::elements::Item::*;
use crate::elements::Sample;
use crate::judge::Judge;
use crate::table::Act;
use crate::table::Act::*;
use crate::table::Closing::*;
use crate::table::Look::*;
use dock_rules::Outcome::*;
use dock_rules::Refusal;
use mark_memory::MarkMemory;
use row_memory::RowMemory;
use slot_memory::SlotMemory;
use std::alloc::AllocError;
use std::process::Abort;
use visit::Visit;

// A take has ended at bay 1, with the serial 2.
const TAKEN_AT_1: &[Act] = &[
    Look(Trays(2)),
    Open(2, 9, u32::MAX, Ok(())),
    PutWhole(0, A, Stored),
    Take(1, Ok(2)),
    Finish(1, Taken),
];

const NOTHING: &[Act] = &[];

const ONE_BAY: &[Act] = &[Open(1, 9, u32::MAX, Ok(()))];

const TWO_FREE: &[Act] = &[Open(2, 9, u32::MAX, Ok(()))];

const UNDER_WAY: &[Act] = &[Open(2, 9, u32::MAX, Ok(())), Take(0, Ok(1)), Take(1, Ok(2))];

const ENDED: &[Act] = &[
    Look(Trays(2)),
    Open(2, 9, u32::MAX, Ok(())),
    Take(0, Ok(1)),
    Take(1, Ok(2)),
    Finish(1, Empty),
];

/// A dock to which a receipt is offered: the calls that were made on it, how many trays are handed over
/// with the receipt, how many are entered in the book of one place, and why the enter and the waive are
/// turned down.
#[derive(Clone, Copy)]
struct Offer {
    acts: &'static [Act],
    handed: usize,
    entered: usize,
    due: (Refusal, Refusal),
}

static OFFERS: [Offer; 11] = [
    // not open: with all of the later reasons, and with the bay and the serial alone
    Offer {
        acts: NOTHING,
        handed: 3,
        entered: 1,
        due: (Refusal::Shut, Refusal::Shut),
    },
    Offer {
        acts: NOTHING,
        handed: 0,
        entered: 0,
        due: (Refusal::Shut, Refusal::Shut),
    },
    // no such bay: after the number of trays, and before the serial and the book
    Offer {
        acts: ONE_BAY,
        handed: 3,
        entered: 1,
        due: (Refusal::Trays, Refusal::Bay),
    },
    Offer {
        acts: ONE_BAY,
        handed: 1,
        entered: 1,
        due: (Refusal::Bay, Refusal::Bay),
    },
    Offer {
        acts: ONE_BAY,
        handed: 1,
        entered: 0,
        due: (Refusal::Bay, Refusal::Bay),
    },
    // no such receipt: after the number of trays, and before the book
    Offer {
        acts: TWO_FREE,
        handed: 3,
        entered: 0,
        due: (Refusal::Trays, Refusal::Serial),
    },
    Offer {
        acts: TWO_FREE,
        handed: 2,
        entered: 1,
        due: (Refusal::Serial, Refusal::Serial),
    },
    Offer {
        acts: TWO_FREE,
        handed: 2,
        entered: 0,
        due: (Refusal::Serial, Refusal::Serial),
    },
    // a call of that bay and serial is no receipt, under way or ended
    Offer {
        acts: UNDER_WAY,
        handed: 2,
        entered: 0,
        due: (Refusal::Serial, Refusal::Serial),
    },
    Offer {
        acts: ENDED,
        handed: 2,
        entered: 0,
        due: (Refusal::Serial, Refusal::Serial),
    },
    Offer {
        acts: TAKEN_AT_1,
        handed: 2,
        entered: 0,
        due: (Refusal::Serial, Refusal::Serial),
    },
];

// The receipt of bay 1 and serial 2 is offered; then it is waived at home, where a new call starts. A
// message names the elements and the memory at home.
fn offered<M: SlotMemory + Drop, N: SlotMemory + Drop>(
    judge: &mut Judge<'_, impl Abort + AllocGlobal>,
    home: M,
    away: N,
    offer: &Offer,
) -> Result<(), AllocError>
where
    M::Element: Sample,
    N::Element: Sample,
{
    let home_desk = Desk::new(judge.rt.alloc(), 3, 1)?;
    let away_desk = Desk::new(judge.rt.alloc(), 3, 1)?;
    let mut home = Bench::new(home, home_desk);
    let mut away = Bench::new(away, away_desk);
    home.play(judge, TAKEN_AT_1);
    home.play(judge, &[Close(Collect(1, 2, Ok(Taken)))]);
    away.play(judge, offer.acts);
    away.play(
        judge,
        &[Look(Trays(offer.handed)), Look(Book(offer.entered))],
    );
    home.offer(judge, &mut away, offer.due);
    away.play(judge, &[Look(Entered(offer.entered))]);
    home.play(judge, &[Close(Waive(Ok(()))), Take(1, Ok(3))]);
    home.end();
    away.end();
    Ok(())
}

// Of words to visits, over different memories, and the other way round.
#[test]
fn refused_by_another_dock(rt: HostRuntime) -> Result<(), AllocError> {
    let mut slots = [None::<u32>; 1];
    let mut visited = [None::<Visit>; 1];
    for (i, offer) in OFFERS.iter().enumerate() {
        let mut judge = Judge::new(&rt, "offered", i, "words", "mark");
        let words = MarkMemory::new(&mut slots);
        let visits = RowMemory::new(&mut visited);
        offered(&mut judge, words, visits, offer)?;
        let mut judge = Judge::new(&rt, "offered", i, "visits", "row");
        let words = MarkMemory::new(&mut slots);
        let visits = RowMemory::new(&mut visited);
        offered(&mut judge, visits, words, offer)?;
    }
    Ok(())
}

// Two docks with a receipt of bay 1 and serial 2 each: either takes the other's for its own, and is
// free then. What is entered at a dock is the element of that dock's tray. A message names the elements
// and the memory of the one.
fn exchanged<M: SlotMemory + Drop, N: SlotMemory + Drop>(
    judge: &mut Judge<'_, impl Abort + AllocGlobal>,
    one: M,
    other: N,
) -> Result<(), AllocError>
where
    M::Element: Sample,
    N::Element: Sample,
{
    let one_desk = Desk::new(judge.rt.alloc(), 2, 1)?;
    let other_desk = Desk::new(judge.rt.alloc(), 2, 1)?;
    let mut one = Bench::new(one, one_desk);
    let mut other = Bench::new(other, other_desk);
    one.play(judge, TAKEN_AT_1);
    other.play(judge, TAKEN_AT_1);
    one.swap(judge, &mut other, 1, 2);
    let entered = [
        Close(Enter(Ok(()))),
        Look(Entered(1)),
        Look(Row(0, A)),
        Take(1, Ok(3)),
    ];
    other.play(judge, &entered);
    one.play(judge, &[Close(Waive(Ok(()))), Take(1, Ok(3))]);
    one.end();
    other.end();
    Ok(())
}

#[test]
fn accepted_by_another_dock(rt: HostRuntime) -> Result<(), AllocError> {
    let mut slots = [None::<u32>; 1];
    let mut visited = [None::<Visit>; 1];
    let mut judge = Judge::new(&rt, "exchanged", 0, "words", "mark");
    let words = MarkMemory::new(&mut slots);
    let visits = RowMemory::new(&mut visited);
    exchanged(&mut judge, words, visits)?;
    let mut judge = Judge::new(&rt, "exchanged", 1, "visits", "mark");
    let words = RowMemory::new(&mut slots);
    let visits = MarkMemory::new(&mut visited);
    exchanged(&mut judge, visits, words)
}
