// A schedule's text run on a dock: each line is a command, and each is answered by a line.
#![tactic(auto)]

ghost use Rattle.std.specs.Prelude.{Some};
ghost use Rattle.schedule.specs.Responses.{response_text};

use commands::Fault;
use dock_rules::{Line, Refusal};
use std::fmt;

mod run;
mod session;
mod transcript;

pub use run::{MOST_TEXT, run_text};

/// How many calls a text may start.
const LIFETIME: u32 = 1000;

/// Where both indices begin.
const BASE: u32 = 0;

/// What a line of a schedule is answered.
// No `Result` over an `Outcome`: each variant is a line that is printed, a refusal and a fault like any other; an
// `Outcome` has no element for TAKEN, and UNTOUCHED is none.
#[derive(Clone, Copy, Debug, PartialEq, Eq)]
pub enum Response {
    /// The dock is open.
    Open,
    /// A call is started, with this serial.
    Call(u32),
    /// The bay's call stands at this line.
    Stands(Line),
    /// The put found the ring full.
    Full,
    /// The put's element is in the ring, or lies in its slot.
    Stored,
    /// The take found the ring empty.
    Empty,
    /// The take's element is in the tray, and this is it.
    Taken(u32),
    /// The call that was left has changed no slot.
    Untouched,
    Refused(Refusal),
    Fault(Fault),
}

impl fmt::Display for Response {
    ghost output = { λ r. Some (response_text r) };

    fn fmt<W: fmt::Write>(&self, f: &mut fmt::Formatter<W>) -> fmt::Result {
        match *self {
            Response::Open => write!(f, "open"),
            Response::Call(serial) => write!(f, "call {serial}"),
            Response::Stands(line) => write!(f, "{line}"),
            Response::Full => write!(f, "FULL"),
            Response::Stored => write!(f, "STORED"),
            Response::Empty => write!(f, "EMPTY"),
            Response::Taken(word) => write!(f, "TAKEN {word}"),
            Response::Untouched => write!(f, "UNTOUCHED"),
            Response::Refused(why) => write!(f, "refused {}", u8::from(why)),
            Response::Fault(fault) => write!(f, "fault {}", u8::from(fault)),
        }
    }
}
