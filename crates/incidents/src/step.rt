// What a step came to, in words.
use dock_rules::{Line, Outcome, Stepped};
use std::fmt;

/// One step of a call.
#[derive(Clone, Copy)]
pub(crate) struct Step {
    /// Where the call stood.
    pub(crate) from: Line,
    /// Where it stands then, or how it ended.
    pub(crate) stepped: Stepped,
}

impl Step {
    // What the bay did: a table of texts by two values, of which neither has the text.
    fn words(self) -> &'static str {
        match (self.from, self.stepped) {
            (Line::E5, _) => "reads the tail",
            (Line::E6, Stepped::Ended(_)) => "finds the ring full",
            (Line::E6, _) => "finds room in the ring",
            (Line::E9, _) => "looks at the slot at the tail",
            (Line::E10, Stepped::At(Line::E12)) => "finds the slot taken and the tail not moved",
            (Line::E10, Stepped::At(Line::E15)) => "finds the slot free",
            (Line::E12, Stepped::At(Line::E13)) => "is about to move the tail for the other",
            (Line::E13, _) => "tries to move the tail for the other, and starts over",
            (Line::E15, Stepped::At(Line::E16)) => "stores its visit in the slot",
            (Line::E15, _) => "is refused its store in the slot, and starts over",
            (Line::E16, Stepped::At(_)) => "is about to move the tail",
            (Line::E16, Stepped::Ended(_)) => "finds the tail moved for it",
            (Line::E17, Stepped::Ended(Outcome::Stored)) => "moves the tail",
            (Line::E17, _) => "is refused its store in the tail, and looks again",
            (Line::E10 | Line::E12, _) => "finds the tail moved, and starts over",
            _ => "steps",
        }
    }
}

impl fmt::Display for Step {
    fn fmt<W: fmt::Write>(&self, f: &mut fmt::Formatter<W>) -> fmt::Result {
        let did = self.words();
        match self.stepped {
            Stepped::At(line) => write!(f, "{did}: it stands at {line}"),
            Stepped::Ended(outcome) => write!(f, "{did}: it ends {outcome}"),
        }
    }
}
