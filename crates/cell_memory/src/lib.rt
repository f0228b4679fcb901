// A slot memory over lent slots, whatever its marks are like: it keeps the slots and the two indices, and
// notes for each bay a mark. What a mark is, and what an accepted store does to the marks, is a trait.
#![tactic(auto)]

use marks::Marks;
use slot_memory::Lent;

mod marking;
mod marks;
mod methods;

pub use marking::Marking;

/// A slot memory that notes the bays' marks as `K`.
#[derive(Drop)]
pub struct CellMemory<'a, E: Copy, K: Copy> {
    slots: Lent<'a, E>,
    tail: u32,
    head: u32,
    marks: Marks<K>,
}
