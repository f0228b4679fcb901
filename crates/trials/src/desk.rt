// The desk of a dock's caller, and the calls that are made from it.
use board::{Board, BoardKind};
use dock::Dock;
use dock_rules::{Abandoned, Line, Outcome, Refusal, Stepped};
use slot_memory::Bay;
use std::fmt;

/// More steps than any call of the trials takes.
const PATIENCE: u32 = 64;

/// The most slots that a ring of the trials has.
const MOST_SLOTS: usize = 4;

/// The most trays that a dock of the trials is handed.
const MOST_TRAYS: usize = 16;

/// How a dock is made and opened.
#[derive(Clone, Copy)]
pub(crate) struct Setting {
    pub(crate) kind: BoardKind,
    pub(crate) slots: usize,
    pub(crate) bays: Bay,
    pub(crate) lifetime: u32,
    pub(crate) base: u32,
}

/// What the last call of a play is answered, with the number of steps that it has taken then.
#[derive(Clone, Copy, PartialEq, Eq)]
pub(crate) enum Answer {
    /// The dock is open.
    Open,
    /// A call is started, with this serial.
    Began(u32),
    /// The bay's call stands at this line.
    Stands(Line, u32),
    /// The bay's call has ended, with nothing in the tray.
    Ended(Outcome, u32),
    /// A take has ended with this element in its tray.
    Taken(u32, u32),
    /// A call is abandoned.
    Left(Abandoned),
}

impl fmt::Display for Answer {
    fn fmt<W: fmt::Write>(&self, f: &mut fmt::Formatter<W>) -> fmt::Result {
        match *self {
            Answer::Open => f.write_str("open"),
            Answer::Began(serial) => write!(f, "call {serial}"),
            Answer::Stands(line, step) => write!(f, "{line} at step {step}"),
            Answer::Ended(outcome, step) => write!(f, "{outcome} at step {step}"),
            Answer::Taken(element, step) => write!(f, "TAKEN {element} at step {step}"),
            Answer::Left(left) => write!(f, "{left}"),
        }
    }
}

/// A call that was started, and how many steps it has taken.
#[derive(Clone, Copy)]
pub(crate) struct Call {
    bay: Bay,
    serial: u32,
    steps: u32,
}

impl Call {
    // The bay's call of that serial, before its first step.
    fn new(bay: Bay, serial: u32) -> Call {
        Call {
            bay,
            serial,
            steps: 0,
        }
    }
}

impl From<Call> for Answer {
    fn from(call: Call) -> Answer {
        Answer::Began(call.serial)
    }
}

impl From<Abandoned> for Answer {
    fn from(left: Abandoned) -> Answer {
        Answer::Left(left)
    }
}

/// An open dock, and the trays that its caller keeps.
#[derive(Drop)]
pub(crate) struct Desk<'a> {
    dock: Dock<Board<'a, u32>>,
    // A row beside the calls, since the dock is lent the trays as one.
    trays: &'a mut [u32],
}

impl Desk<'_> {
    /// Starts a put.
    pub(crate) fn put(&mut self, bay: Bay, element: u32) -> Result<Call, Refusal> {
        let serial = self.dock.put(bay, element, self.trays)?;
        Ok(Call::new(bay, serial))
    }

    /// Starts a take.
    pub(crate) fn take(&mut self, bay: Bay) -> Result<Call, Refusal> {
        let serial = self.dock.take(bay)?;
        Ok(Call::new(bay, serial))
    }

    /// Runs one line of the call.
    pub(crate) fn step(&mut self, call: &mut Call) -> Result<Answer, Refusal> {
        let stepped = self.dock.step(call.bay, self.trays)?;
        call.steps = call.steps.saturating_add(1);
        Ok(match stepped {
            Stepped::At(line) => Answer::Stands(line, call.steps),
            Stepped::Ended(Outcome::Taken) => {
                // 0 is never told: the dock has refused the step of a bay that has no tray.
                let element = self.trays.get(call.bay as usize).copied().unwrap_or(0);
                Answer::Taken(element, call.steps)
            }
            Stepped::Ended(outcome) => Answer::Ended(outcome, call.steps),
        })
    }

    /// Takes so many steps, and one at least. Answers the last.
    pub(crate) fn steps(&mut self, call: &mut Call, many: u32) -> Result<Answer, Refusal> {
        for _ in 1..many {
            self.step(call)?;
        }
        self.step(call)
    }

    // Takes steps until the call stands at the line, or has ended, or takes too long.
    fn run(&mut self, call: &mut Call, until: Option<Line>) -> Result<Answer, Refusal> {
        for _ in 1..PATIENCE {
            match self.step(call)? {
                Answer::Stands(line, _) if until != Some(line) => {}
                answer => return Ok(answer),
            }
        }
        self.step(call)
    }

    /// Takes steps until the call stands at the line.
    pub(crate) fn reach(&mut self, call: &mut Call, line: Line) -> Result<Answer, Refusal> {
        self.run(call, Some(line))
    }

    /// Takes steps until the call has ended.
    pub(crate) fn finish(&mut self, call: &mut Call) -> Result<Answer, Refusal> {
        self.run(call, None)
    }

    /// Collects the call; a take's receipt is waived.
    pub(crate) fn collect(&mut self, call: Call) -> Result<(), Refusal> {
        let (_, receipt) = self.dock.collect(call.bay, call.serial)?.into_parts();
        if let Some(receipt) = receipt {
            self.dock.waive(receipt).unwrap();
        }
        Ok(())
    }

    /// Abandons the call; a take's receipt is waived.
    pub(crate) fn abandon(&mut self, call: Call) -> Result<Abandoned, Refusal> {
        let (abandoned, receipt) = self.dock.abandon(call.bay, call.serial)?.into_parts();
        if let Some(receipt) = receipt {
            self.dock.waive(receipt).unwrap();
        }
        Ok(abandoned)
    }
}

/// Opens a dock as set, and makes a play's calls from its desk. Answers what the last was answered, or the
/// first refusal.
// Kept out of line, so that its frame is given back before the play is told.
#[inline(never)]
pub(crate) fn play<F: FnOnce(&mut Desk<'_>) -> Result<Answer, Refusal>>(
    setting: Setting,
    calls: F,
) -> Result<Answer, Refusal>
    requires { F.IsAlwaysCallable calls }
{
    let mut slots = [None; MOST_SLOTS];
    let mut trays = [0u32; MOST_TRAYS];
    let lent = setting.slots.min(MOST_SLOTS);
    let handed = (setting.bays as usize).min(MOST_TRAYS);
    let mut dock = Dock::new(Board::new(setting.kind, &mut slots[..lent]));
    dock.open(setting.bays, setting.lifetime, setting.base)?;
    calls(&mut Desk {
        dock,
        trays: &mut trays[..handed],
    })
}
