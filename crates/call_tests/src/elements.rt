// What the elements of a table stand for.
use std::fmt::Debug;
use visit::Visit;

/// An element of a table.
#[derive(Clone, Copy)]
pub(crate) enum Item {
    /// What a slot holds before the first call.
    Old,
    /// What lies in every tray and stands in the book at first.
    Blank,
    A,
    B,
    C,
}

/// A kind of element that tables are run on.
pub(crate) trait Sample: Copy + PartialEq + Debug {
    /// What the elements are called in messages.
    const NAME: &'static str;

    /// The element that the item stands for.
    fn of(item: Item) -> Self;
}

impl Sample for u32 {
    const NAME: &'static str = "words";

    fn of(item: Item) -> u32 {
        match item {
            Item::Old => 77,
            Item::Blank => 0,
            Item::A => 5,
            Item::B => 6,
            Item::C => 7,
        }
    }
}

impl Sample for Visit {
    const NAME: &'static str = "visits";

    fn of(item: Item) -> Visit {
        let (guard, checkpoint, minute) = match item {
            Item::Blank => (0, 0, 0),
            Item::A => (1, 2, 0),
            Item::B => (1, 2, 1439),
            Item::C | Item::Old => (65535, 2, 1439),
        };
        Visit {
            guard,
            checkpoint,
            minute,
        }
    }
}
