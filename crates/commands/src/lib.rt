// The text of a schedule: its lines, words and numbers, and the command that each line gives.
#![tactic(auto)]

ghost use Rattle.std.specs.Prelude.{◌≡◌};

use slot_memory::Bay;

mod lexer;
mod parse;

/// What a line of a schedule asks for. A *bay* is one of the dock's, by number.
// The two opens are two commands of a text, and no kind of board is known here.
#[derive(Clone, Copy, Debug, PartialEq, Eq)]
pub enum Command {
    /// Opens a dock of so many bays over a mark memory with so many slots.
    Marks(u32, Bay),
    /// Opens a dock of so many bays over a row memory with so many slots.
    Rows(u32, Bay),
    /// Starts a put of a word.
    Put(Bay, u32),
    /// Starts a take.
    Take(Bay),
    /// Runs one line of the bay's call.
    Step(Bay),
    /// Asks how the bay's last call ended.
    Collect(Bay),
    /// Gives up the bay's last call.
    Leave(Bay),
}

/// Why a line is no command, with the number by which it is printed.
#[derive(Clone, Copy, Debug, PartialEq, Eq)]
pub enum Fault {
    /// The first word is no command's.
    Command = 1,
    /// A number is missing, is none, or is too large.
    Number = 2,
    /// Something follows the last number.
    Rest = 3,
}

/// A schedule's text, read a line at a time.
#[derive(Drop)]
pub struct Schedule<'a> {
    /// What is not read yet.
    text: &'a [u8],
}
