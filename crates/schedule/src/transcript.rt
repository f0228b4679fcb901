// A schedule's text while it is answered.
ghost use Rattle.std.specs.Prelude.{◌+◌, ◌^◌, ◌<◌, length};
ghost use Rattle.commands.specs.Commands.{lines_left};

use crate::Response;
use commands::{Command, Fault, Schedule};
use std::alloc::{AllocError, Global};

/// A schedule that is being answered: the lines that are left of it, and what is printed so far.
#[derive(Drop)]
pub(crate) struct Transcript<'a> {
    pub(crate) heap: Global,
    schedule: Schedule<'a>,
    out: String,
    /// The number of the line that was read last; 0 before the first.
    // No `enumerate` of the schedule, whose number would then be handed to each function on the way to `print`.
    number: u32,
    ghost fits: { number + length (lines_left schedule) < 2 ^ 32 },
}

impl<'a> Transcript<'a> {
    ghost use Rattle.std.specs.Prelude.{◌≡◌, [], ◌++◌, OnOk, MatchOption, string_bytes};
    ghost use Rattle.commands.specs.Text.{lines_of};
    ghost use Rattle.commands.specs.Commands.{next_command};
    ghost use Rattle.schedule.specs.Output.{line_text};

    /// The transcript of this text, of which nothing is read.
    pub(crate) fn new(heap: Global, text: &'a [u8]) -> Transcript<'a>
        requires { length text.now < 2 ^ 32 }
        ensures lines { lines_left result.schedule ≡ lines_of text.now }
        ensures out { string_bytes result.out ≡ [] }
        ensures number { result.number ≡ 0 }
    {
        Transcript {
            heap,
            schedule: Schedule::new(text),
            out: String::new(heap),
            number: 0,
        }
    }

    /// The command of the next line, or its fault; nothing behind the last line.
    pub(crate) fn read(&mut self) -> Option<Result<Command, Fault>>
        ensures lines { (result, lines_left self.new.schedule) ≡ next_command (lines_left self.old.schedule) }
        ensures out { self.new.out ≡ self.old.out }
        ensures number { MatchOption result (self.new.number ≡ self.old.number) (λ _. self.new.number ≡ self.old.number + 1) }
    {
        let read = self.schedule.next()?;
        self.number += 1;
        Some(read)
    }

    /// Prints the response to the line that was read last.
    pub(crate) fn print(&mut self, response: Response) -> Result<(), AllocError>
        ensures lines { self.new.schedule ≡ self.old.schedule }
        ensures out { OnOk result (string_bytes self.new.out ≡ string_bytes self.old.out ++ line_text self.old.number response) }
        ensures number { self.new.number ≡ self.old.number }
    {
        writeln!(self.out, "{} {response}", self.number)
    }

    /// What is printed.
    pub(crate) fn finish(self) -> String
        ensures { result ≡ self.entry.out }
    {
        self.out
    }
}
