// A visit: what a patrol reader notes when a guard passes a checkpoint.
#![tactic(auto)]

ghost use Rattle.std.specs.Prelude.{Some};
ghost use Rattle.visit.specs.Written.{written};

use std::fmt;

/// One visit of a guard to a checkpoint.
#[derive(Clone, Copy, Debug, PartialEq, Eq, Default)]
pub struct Visit {
    pub guard: u16,
    pub checkpoint: u16,
    /// Of the day, counted from midnight.
    pub minute: u16,
}

impl fmt::Display for Visit {
    ghost output = { λ v. Some (written v) };

    fn fmt<W: fmt::Write>(&self, f: &mut fmt::Formatter<W>) -> fmt::Result {
        write!(
            f,
            "guard {} at {}, minute {}",
            self.guard, self.checkpoint, self.minute
        )
    }
}
