// The row memory: a memory over cells that lie in rows, where an accepted store disturbs the marks on its
// neighbours. A store on a disturbed mark is refused although it is live.
#![tactic(auto)]

ghost use Rattle.std.specs.Prelude.{◌≡◌, ◌↔◌, true};
ghost use Rattle.slot_memory.specs.Rules.{Operation, Reply};
ghost use Rattle.cell_memory.specs.declared.CellMemory as cells;
ghost use Rattle.row_memory.specs.Row.{same_row, place, sound, struck, is_spoilt, mark_laws};
ghost use Rattle.row_memory.specs.Exact.{Balks};

use cell_memory::{CellMemory, Marking};
use slot_memory::{Cell, SlotMemory};

/// A mark that an accepted store on a neighbour of its cell spoils.
#[derive(Clone, Copy, Debug, PartialEq, Eq)]
pub struct RowMark {
    cell: Cell,
    /// A store was accepted on another cell of the same row since the mark was made: the next store
    /// on this mark is refused.
    // A flag, since a mark has its cell in either case.
    spoilt: bool,
}

/// A slot memory that refuses the live stores on spoilt marks.
pub type RowMemory<'a, E> = CellMemory<'a, E, RowMark>;

/// What a row memory does at an operation is what its definition says. This is the law; there is nothing to run.
pub fn rows_balk<'a, E: Copy + 'a>()
    ensures { (m : cells.CellMemory E RowMark) (o : Operation E) (r : Reply E) (n : cells.CellMemory E RowMark) → ⟦<RowMemory<'a, E> as SlotMemory>⟧.exactly m o r n ↔ Balks m o r n }
{}

fn same_row(a: Cell, b: Cell) -> bool
    ensures { result ≡ same_row a b }
{
    match (a, b) {
        (Cell::Slot(i), Cell::Slot(j)) => i / 4 == j / 4,
        (Cell::At(_), Cell::At(_)) => true,
        _ => false,
    }
}

impl Marking for RowMark {
    ghost place = { place };

    ghost spoilt = { is_spoilt };

    ghost made = { sound };

    ghost struck = { struck };

    ghost balks = { true };

    ghost laws = { mark_laws };

    fn on(cell: Cell) -> RowMark {
        RowMark {
            cell,
            spoilt: false,
        }
    }

    fn allows(self, cell: Cell) -> bool {
        self.cell == cell && !self.spoilt
    }

    fn strike(self, cell: Cell) -> Option<RowMark> {
        match self.cell {
            on if on == cell => None,
            on if same_row(on, cell) => Some(RowMark {
                spoilt: true,
                ..self
            }),
            _ => Some(self),
        }
    }
}
