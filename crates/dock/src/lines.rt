// The numbered lines of a put and of a take.
ghost use Rattle.std.specs.Prelude.{◌≡◌, ◌%◌, ◌<◌, length};
ghost use Rattle.dock.specs.Line.{Runs};

use dock_rules::{Attempt, Line, Outcome, Stepped};
use slot_memory::{Bay, Index, SlotMemory, Stored};

// The slot at an index. A ring without slots has none: the number is then out of its range.
fn slot_at(index: u32, length: u32) -> u32
    ensures { result ≡ index % length }
{
    index.checked_rem(length).unwrap_or(index)
}

// Runs the line at which the call stands.
pub(crate) fn run<M: SlotMemory>(
    memory: &mut M,
    bay: Bay,
    call: &mut Attempt,
    trays: &mut [M::Element],
) -> Stepped
    requires { bay < length trays.old }
    ensures { Runs M.SlotMemory memory.old bay call.old.line call.old trays.old result memory.new call.new trays.new }
{
    let length = memory.length();
    let slot = slot_at(call.index, length);
    // One arm for each line, with its ways out row by row, to be compared with the figure.
    match call.line {
        Line::E5 => {
            call.index = memory.read(Index::Tail);
            Stepped::At(Line::E6)
        }
        Line::E6 => match memory.read(Index::Head) {
            head if head.wrapping_add(length) == call.index => Stepped::Ended(Outcome::Full),
            _ => Stepped::At(Line::E9),
        },
        Line::E9 => {
            call.held = memory.mark_slot(bay, slot).is_some();
            Stepped::At(Line::E10)
        }
        Line::E10 => match memory.read(Index::Tail) {
            tail if tail != call.index => Stepped::At(Line::E5),
            _ if call.held => Stepped::At(Line::E12),
            _ => Stepped::At(Line::E15),
        },
        Line::E12 => match memory.mark_index(bay, Index::Tail) {
            tail if tail == call.index => Stepped::At(Line::E13),
            _ => Stepped::At(Line::E5),
        },
        Line::E13 => {
            let _ = memory.store_index(bay, Index::Tail, call.index.wrapping_add(1));
            Stepped::At(Line::E5)
        }
        Line::E15 => match memory.store_slot(bay, slot, Some(trays[bay as usize])) {
            Stored::Accepted => Stepped::At(Line::E16),
            Stored::Refused => Stepped::At(Line::E5),
        },
        Line::E16 => match memory.mark_index(bay, Index::Tail) {
            tail if tail == call.index => Stepped::At(Line::E17),
            _ => Stepped::Ended(Outcome::Stored),
        },
        Line::E17 => match memory.store_index(bay, Index::Tail, call.index.wrapping_add(1)) {
            Stored::Accepted => Stepped::Ended(Outcome::Stored),
            Stored::Refused => Stepped::At(Line::E16),
        },
        Line::D5 => {
            call.index = memory.read(Index::Head);
            Stepped::At(Line::D6)
        }
        Line::D6 => match memory.read(Index::Tail) {
            tail if tail == call.index => Stepped::Ended(Outcome::Empty),
            _ => Stepped::At(Line::D9),
        },
        Line::D9 => {
            let found = memory.mark_slot(bay, slot);
            call.held = found.is_some();
            if let Some(element) = found {
                trays[bay as usize] = element;
            }
            Stepped::At(Line::D10)
        }
        Line::D10 => match memory.read(Index::Head) {
            head if head != call.index => Stepped::At(Line::D5),
            _ if call.held => Stepped::At(Line::D15),
            _ => Stepped::At(Line::D12),
        },
        Line::D12 => match memory.mark_index(bay, Index::Head) {
            head if head == call.index => Stepped::At(Line::D13),
            _ => Stepped::At(Line::D5),
        },
        Line::D13 => {
            let _ = memory.store_index(bay, Index::Head, call.index.wrapping_add(1));
            Stepped::At(Line::D5)
        }
        Line::D15 => match memory.store_slot(bay, slot, None) {
            Stored::Accepted => Stepped::At(Line::D16),
            Stored::Refused => Stepped::At(Line::D5),
        },
        Line::D16 => match memory.mark_index(bay, Index::Head) {
            head if head == call.index => Stepped::At(Line::D17),
            _ => Stepped::Ended(Outcome::Taken),
        },
        Line::D17 => match memory.store_index(bay, Index::Head, call.index.wrapping_add(1)) {
            Stored::Accepted => Stepped::Ended(Outcome::Taken),
            Stored::Refused => Stepped::At(Line::D16),
        },
    }
}
