// The mark memory: a memory over cells that accepts every live store, since nothing spoils its marks.
#![tactic(auto)]

ghost use Rattle.std.specs.Prelude.{◌≡◌, ◌↔◌, false};
ghost use Rattle.slot_memory.specs.Rules.{Operation, Reply};
ghost use Rattle.cell_memory.specs.declared.CellMemory as cells;
ghost use Rattle.cell_memory.specs.Exact.{marks_of, marks_after};
ghost use Rattle.mark_memory.specs.Exact.{place, made, struck, spoilt, mark_laws, plain, meaning_of, Accepts};

use cell_memory::{CellMemory, Marking};
use slot_memory::{Cell, SlotMemory};

/// A mark that nothing spoils.
#[derive(Clone, Copy, Debug, PartialEq, Eq)]
pub struct PlainMark {
    cell: Cell,
}

/// A slot memory that accepts every live store.
pub type MarkMemory<'a, E> = CellMemory<'a, E, PlainMark>;

/// What a mark memory does at an operation is what its definition says. This is the law; there is nothing to run.
pub fn marks_accept<'a, E: Copy + 'a>()
    ensures { (m : cells.CellMemory E PlainMark) (o : Operation E) (r : Reply E) (n : cells.CellMemory E PlainMark) → ⟦<MarkMemory<'a, E> as SlotMemory>⟧.exactly m o r n ↔ (Accepts (meaning_of m) o r (meaning_of n) × (marks_of n ≡ marks_after plain (meaning_of m) (marks_of m) o)) }
{}

impl Marking for PlainMark {
    ghost place = { place };

    ghost spoilt = { spoilt };

    ghost made = { made };

    ghost struck = { struck };

    ghost balks = { false };

    ghost laws = { mark_laws };

    fn on(cell: Cell) -> PlainMark {
        PlainMark { cell }
    }

    fn allows(self, cell: Cell) -> bool {
        self.cell == cell
    }

    fn strike(self, cell: Cell) -> Option<PlainMark> {
        (self.cell != cell).then_some(self)
    }
}
