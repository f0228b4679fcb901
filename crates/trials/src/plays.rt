// The trials: for each what it shows, the calls of its plays, and what the last call of a play is due to
// be answered. Each tells whether all of its plays came out so.
use crate::desk::{Answer, Call, Desk, Setting};
use crate::telling::tell;
use board::BoardKind::{Marks, Rows};
use dock_rules::Line::*;
use dock_rules::{Abandoned, Line, Outcome, Refusal};
use slot_memory::Bay;
use std::io;

/// Two bays and one slot.
const ONE_SLOT: Setting = Setting {
    kind: Marks,
    slots: 1,
    bays: 2,
    lifetime: 10,
    base: 0,
};

/// Two bays and two slots.
const TWO_SLOTS: Setting = Setting {
    slots: 2,
    ..ONE_SLOT
};

/// The index after the first is 0.
const AT_TOP: Setting = Setting {
    base: 4294967295,
    ..TWO_SLOTS
};

/// Two slots in a row, and both indices in another.
const TWO_IN_ROWS: Setting = Setting {
    kind: Rows,
    ..TWO_SLOTS
};

/// Four slots, each on its own.
const FOUR_BY_MARKS: Setting = Setting {
    slots: 4,
    ..ONE_SLOT
};

/// Four slots in a row.
const FOUR_IN_ROWS: Setting = Setting {
    slots: 4,
    ..TWO_IN_ROWS
};

// Puts the element, to the end, and collects the put.
fn put_in(desk: &mut Desk<'_>, bay: Bay, element: u32) -> Result<(), Refusal> {
    let mut put = desk.put(bay, element)?;
    desk.finish(&mut put)?;
    desk.collect(put)
}

/// A put by itself.
pub(crate) fn put_alone(rt: &impl Print) -> io::Result<bool> {
    println!(rt; "1. One slot: bay 0 puts 5, alone.")?;
    let due = Ok(Answer::Ended(Outcome::Stored, 7));
    tell(rt, "The put", ONE_SLOT, due, |desk| {
        let mut put = desk.put(0, 5)?;
        desk.finish(&mut put)
    })
}

/// A take by itself.
pub(crate) fn take_alone(rt: &impl Print) -> io::Result<bool> {
    println!(rt; "2. After that put is collected, bay 1 takes, alone.")?;
    let due = Ok(Answer::Taken(5, 7));
    tell(rt, "The take", ONE_SLOT, due, |desk| {
        put_in(desk, 0, 5)?;
        let mut take = desk.take(1)?;
        desk.finish(&mut take)
    })
}

/// A put that finds no free slot.
pub(crate) fn put_on_full(rt: &impl Print) -> io::Result<bool> {
    println!(rt; "3. After that put is collected, bay 0 puts 6.")?;
    let due = Ok(Answer::Ended(Outcome::Full, 2));
    tell(rt, "The second put", ONE_SLOT, due, |desk| {
        put_in(desk, 0, 5)?;
        let mut put = desk.put(0, 6)?;
        desk.finish(&mut put)
    })
}

/// A take that finds nothing.
pub(crate) fn take_on_new(rt: &impl Print) -> io::Result<bool> {
    println!(rt; "4. On a new dock bay 0 takes.")?;
    let due = Ok(Answer::Ended(Outcome::Empty, 2));
    tell(rt, "The take", ONE_SLOT, due, |desk| {
        let mut take = desk.take(0)?;
        desk.finish(&mut take)
    })
}

/// A put that has stored and not moved Tail has not taken effect.
pub(crate) fn take_beside_held(rt: &impl Print) -> io::Result<bool> {
    println!(rt;
        "5. Two slots: bay 0 puts 5 and is held at E16, before it can move Tail. Bay 1 takes."
    )?;
    let due = Ok(Answer::Stands(E16, 5));
    let put = tell(rt, "The put", TWO_SLOTS, due, |desk| {
        let mut put = desk.put(0, 5)?;
        desk.reach(&mut put, E16)
    })?;
    let due = Ok(Answer::Ended(Outcome::Empty, 2));
    let take = tell(rt, "The take", TWO_SLOTS, due, |desk| {
        let mut put = desk.put(0, 5)?;
        desk.reach(&mut put, E16)?;
        let mut take = desk.take(1)?;
        desk.finish(&mut take)
    })?;
    Ok(put && take)
}

// Bay 0 puts 5 and is held at E16. Bay 1 puts 6 and takes so many steps, and then bay 0 takes one.
fn step_after_help(desk: &mut Desk<'_>, many: u32) -> Result<Answer, Refusal> {
    let mut held = desk.put(0, 5)?;
    desk.reach(&mut held, E16)?;
    let mut helper = desk.put(1, 6)?;
    desk.steps(&mut helper, many)?;
    desk.step(&mut held)
}

/// Another put moves Tail in the held one's place.
pub(crate) fn put_helps_held(rt: &impl Print) -> io::Result<bool> {
    println!(rt; "6. As before, but bay 1 puts 6: its 6th step moves Tail for bay 0.")?;
    let tells = "Bay 0's next step, after 5 steps of bay 1";
    let due = Ok(Answer::Stands(E17, 6));
    let before = tell(rt, tells, TWO_SLOTS, due, |desk| step_after_help(desk, 5))?;
    let tells = "Bay 0's next step, after 6 steps of bay 1";
    let due = Ok(Answer::Ended(Outcome::Stored, 6));
    let after = tell(rt, tells, TWO_SLOTS, due, |desk| step_after_help(desk, 6))?;
    Ok(before && after)
}

// With one element in, bay 0 takes up to D15, bay 1's put passes E15, and bay 0 takes one step.
fn step_after_neighbour(desk: &mut Desk<'_>) -> Result<Answer, Refusal> {
    put_in(desk, 1, 5)?;
    let mut take = desk.take(0)?;
    desk.reach(&mut take, D15)?;
    let mut put = desk.put(1, 6)?;
    desk.reach(&mut put, E16)?;
    desk.step(&mut take)
}

/// Rows balk at a store in a slot beside another.
pub(crate) fn take_beside_put(rt: &impl Print) -> io::Result<bool> {
    println!(rt;
        "7. Four slots, one element in: bay 0's take stands at D15 while bay 1's put passes E15."
    )?;
    let tells = "Bay 0's next step, over rows";
    let due = Ok(Answer::Stands(D5, 5));
    let rows = tell(rt, tells, FOUR_IN_ROWS, due, step_after_neighbour)?;
    let tells = "Bay 0's next step, over marks";
    let due = Ok(Answer::Stands(D16, 5));
    let marks = tell(rt, tells, FOUR_BY_MARKS, due, step_after_neighbour)?;
    Ok(rows && marks)
}

// With one element in, bay 1 takes up to D17, and bay 0 puts up to E17.
fn take_and_put(desk: &mut Desk<'_>) -> Result<(Call, Call), Refusal> {
    put_in(desk, 1, 5)?;
    let mut take = desk.take(1)?;
    desk.reach(&mut take, D17)?;
    let mut put = desk.put(0, 6)?;
    desk.reach(&mut put, E17)?;
    Ok((take, put))
}

/// Rows balk at a store in Tail beside one in Head.
pub(crate) fn put_beside_take(rt: &impl Print) -> io::Result<bool> {
    println!(rt;
        "8. Rows, two slots, one element in: bay 1's take stands at D17, bay 0's put reaches E17, and bay 1 steps."
    )?;
    let due = Ok(Answer::Taken(5, 7));
    let step = tell(rt, "Bay 1's step", TWO_IN_ROWS, due, |desk| {
        let (mut take, _) = take_and_put(desk)?;
        desk.step(&mut take)
    })?;
    let due = Ok(Answer::Stands(E16, 7));
    let next = tell(rt, "Bay 0's next step", TWO_IN_ROWS, due, |desk| {
        let (mut take, mut put) = take_and_put(desk)?;
        desk.step(&mut take)?;
        desk.step(&mut put)
    })?;
    let due = Ok(Answer::Ended(Outcome::Stored, 9));
    let end = tell(rt, "Bay 0's end", TWO_IN_ROWS, due, |desk| {
        let (mut take, mut put) = take_and_put(desk)?;
        desk.step(&mut take)?;
        desk.finish(&mut put)
    })?;
    Ok(step && next && end)
}

/// The indices come round.
pub(crate) fn put_at_top(rt: &impl Print) -> io::Result<bool> {
    println!(rt;
        "9. Two slots, and both indices begin at 4294967295: bay 0 puts 5, and bay 1 takes."
    )?;
    let due = Ok(Answer::Ended(Outcome::Stored, 7));
    let put = tell(rt, "The put", AT_TOP, due, |desk| {
        let mut put = desk.put(0, 5)?;
        desk.finish(&mut put)
    })?;
    let due = Ok(Answer::Taken(5, 7));
    let take = tell(rt, "The take", AT_TOP, due, |desk| {
        let mut put = desk.put(0, 5)?;
        desk.finish(&mut put)?;
        let mut take = desk.take(1)?;
        desk.finish(&mut take)
    })?;
    Ok(put && take)
}

// Bay 0 puts 5 up to the line, and abandons the put.
fn give_up_at(desk: &mut Desk<'_>, line: Line) -> Result<Answer, Refusal> {
    let mut put = desk.put(0, 5)?;
    desk.reach(&mut put, line)?;
    Ok(desk.abandon(put)?.into())
}

/// What becomes of an abandoned put.
pub(crate) fn put_given_up(rt: &impl Print) -> io::Result<bool> {
    println!(rt; "10. One slot: bay 0 puts 5 and abandons the put.")?;
    let due = Ok(Answer::Left(Abandoned::Untouched));
    let before = tell(rt, "At E15", ONE_SLOT, due, |desk| give_up_at(desk, E15))?;
    let due = Ok(Answer::Left(Abandoned::Stored));
    let after = tell(rt, "At E16", ONE_SLOT, due, |desk| give_up_at(desk, E16))?;
    Ok(before && after)
}

/// What a dock is opened with, and for how many calls.
pub(crate) fn limits(rt: &impl Print) -> io::Result<bool> {
    println!(rt; "11. What may be opened, and for how long.")?;
    let three = Setting {
        slots: 3,
        ..ONE_SLOT
    };
    let due = Err(Refusal::Length);
    let length = tell(rt, "A ring of 3 slots", three, due, |_| Ok(Answer::Open))?;
    let most = Setting {
        bays: 16,
        ..ONE_SLOT
    };
    let due = Ok(Answer::Open);
    let sixteen = tell(rt, "16 bays", most, due, |_| Ok(Answer::Open))?;
    let more = Setting {
        bays: 17,
        ..ONE_SLOT
    };
    let due = Err(Refusal::Bays);
    let seventeen = tell(rt, "17 bays", more, due, |_| Ok(Answer::Open))?;
    let once = Setting {
        lifetime: 1,
        ..TWO_SLOTS
    };
    let tells = "With a lifetime of 1, a second put, on a free bay";
    let due = Err(Refusal::Worn);
    let worn = tell(rt, tells, once, due, |desk| {
        desk.put(0, 5)?;
        Ok(desk.put(1, 6)?.into())
    })?;
    Ok(length && sixteen && seventeen && worn)
}
