// What is left to do once a call is collected or given up.
ghost use Rattle.std.specs.Prelude.{◌≡◌};
ghost use Rattle.schedule.specs.Ended.{ended_by_collect, ended_by_leave};

use crate::Response;
use dock::{Collected, Left, Receipt};

/// A call that is done with: how it is answered, or the receipt that is to be settled first.
// No `Result`: a receipt is no error.
pub(super) enum Ended {
    Answered(Response),
    Owed(Receipt),
}

// By its variants and not by `into_parts`: TAKEN without a receipt would be a case that never comes.
impl From<Collected> for Ended {
    ghost from_gives = { λ collected ended. ended ≡ ended_by_collect collected };

    fn from(collected: Collected) -> Ended {
        match collected {
            Collected::Full => Ended::Answered(Response::Full),
            Collected::Stored => Ended::Answered(Response::Stored),
            Collected::Empty => Ended::Answered(Response::Empty),
            Collected::Taken(receipt) => Ended::Owed(receipt),
        }
    }
}

impl From<Left> for Ended {
    ghost from_gives = { λ left ended. ended ≡ ended_by_leave left };

    fn from(left: Left) -> Ended {
        match left {
            Left::Untouched => Ended::Answered(Response::Untouched),
            Left::Stored => Ended::Answered(Response::Stored),
            Left::Taken(receipt) => Ended::Owed(receipt),
        }
    }
}
