// A text's commands, obeyed one after the other, and what is printed of them.
ghost use Rattle.std.specs.Prelude.{◌≡◌, [], IfOk, string_bytes, OnOk};
ghost use Rattle.commands.specs.Commands.{lines_left};
ghost use Rattle.schedule.specs.Output.{NotOpen, opening, responds, output_of, LawfulText};
ghost use Rattle.schedule.specs.Sessions.{Opens, Ends};

use crate::Response;
use crate::session::Session;
use crate::transcript::Transcript;
use board::{Board, BoardKind};
use commands::{Command, Fault};
use dock_rules::Refusal;
use slot_memory::Bay;
use std::alloc::{AllocError, Global};

/// The longest text.
pub const MOST_TEXT: usize = 4096;

/// How many elements a book has room for.
const BOOK_LENGTH: usize = 64;

impl Transcript<'_> {
    // Answers the lines that are left on an open dock.
    fn heed_all(&mut self, session: &mut Session<'_>) -> Result<(), AllocError>
        ensures lines { OnOk result (lines_left self.new.schedule ≡ []) }
        ensures through { OnOk result (Ends session.old self.old self.new) }
    {
        // No `for`, which would hold the transcript while the body prints to it.
        while let Some(read) = self.read() {
            self.print(session.heed(read))?;
        }
        Ok(())
    }

    // Opens a dock over a fresh board and, if that is granted, answers the lines that are left.
    fn open(&mut self, kind: BoardKind, slots: u32, bays: Bay) -> Result<(), AllocError>
        ensures { OnOk result (Opens (opening kind slots bays) self.old self.new) }
    {
        let mut lent = vec![in self.heap; None; slots as usize]?;
        let trays = vec![in self.heap; 0; bays as usize]?;
        let mut row = [0; BOOK_LENGTH];
        let board = Board::new(kind, lent.as_mut_slice());
        let mut session = Session::new(board, trays, &mut row);
        match session.open(bays) {
            Ok(()) => {
                self.print(Response::Open)?;
                self.heed_all(&mut session)
            }
            Err(why) => self.print(Response::Refused(why)),
        }
    }

    // Answers a line before the dock is open, and where it opens one the lines behind it.
    fn heed_shut(&mut self, read: Result<Command, Fault>) -> Result<(), AllocError>
        ensures { OnOk result (Opens (responds NotOpen read) self.old self.new) }
    {
        match read {
            Ok(Command::Marks(slots, bays)) => self.open(BoardKind::Marks, slots, bays),
            Ok(Command::Rows(slots, bays)) => self.open(BoardKind::Rows, slots, bays),
            Ok(_) => self.print(Response::Refused(Refusal::Shut)),
            Err(fault) => self.print(Response::Fault(fault)),
        }
    }
}

/// Runs the schedule that a text has, and answers what is printed of it: a line for each line of the
/// text, with its number and its response. A text of more than 4,096 bytes is too long.
pub fn run_text(heap: Global, text: &[u8]) -> Result<String, AllocError>
    ensures output { IfOk result (λ s. string_bytes s ≡ output_of text.now) }
    ensures law { OnOk result (LawfulText text.now) }
{
    if text.len() > MOST_TEXT {
        return String::from_str(heap, "too long\n");
    }
    let mut transcript = Transcript::new(heap, text);
    // No `for`, as above.
    while let Some(read) = transcript.read() {
        transcript.heed_shut(read)?;
    }
    Ok(transcript.finish())
}
