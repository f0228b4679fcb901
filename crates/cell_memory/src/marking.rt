// What a memory notes of a mark.
ghost use Rattle.std.specs.Prelude.{◌≡◌, Bool, not, ◌&&◌, Option};
ghost use Rattle.slot_memory.specs.declared.Cell.{Cell};
ghost use Rattle.slot_memory.specs.Meaning.{same_cell};
ghost use Rattle.cell_memory.specs.Laws.{MarkLaws};

use slot_memory::Cell;

/// A bay's mark, as a memory notes it.
pub trait Marking: Copy {
    /// The cell that the mark is on.
    ghost place: { Self → Cell };

    /// The next store on this mark is refused, live or not.
    ghost spoilt: { Self → Bool };

    /// The mark that is just made on a cell.
    ghost made: { Cell → Self };

    /// What an accepted store on the cell leaves of the mark.
    ghost struck: { Cell → Self → Option Self };

    /// Whether a mark can be spoilt at all.
    ghost balks: { Bool };

    /// A mark on the cell.
    fn on(cell: Cell) -> Self
        ensures { result ≡ made cell };

    /// Whether a store on the cell is accepted from a bay with this mark.
    fn allows(self, cell: Cell) -> bool
        ensures { result ≡ (same_cell (place self) cell && not (spoilt self)) };

    /// What an accepted store on the cell leaves of the mark.
    fn strike(self, cell: Cell) -> Option<Self>
        ensures { result ≡ struck cell self };

    // What each kind of mark must keep.
    ghost laws: { MarkLaws place spoilt made struck balks };
}
