// The command of a line.
ghost use Rattle.std.specs.Prelude.{◌≡◌};
ghost use Rattle.std.specs.Iterator.{item_count};
ghost use Rattle.std.specs.Option.{ok_or};
ghost use Rattle.commands.specs.Text.{lines_of};
ghost use Rattle.commands.specs.Tokens.{words_left};
ghost use Rattle.commands.specs.Commands.{most_bay, verb_of, number_next, others, then_only, following, command_of, fault_number, lines_left, next_command};

use crate::lexer::{Lexer, Token, cut};
use crate::{Command, Fault, Schedule};
use slot_memory::Bay;
use std::str::FromStr;

/// The most slots that a ring can be asked for.
const MOST_LENGTH: u32 = 1024;

/// The first word of a line, which says what is to be done.
// Apart from `Command`, so that the word is read in one `match` on text and the numbers in one that names every verb.
#[derive(Clone, Copy)]
pub(crate) enum Verb {
    Marks,
    Rows,
    Put,
    Take,
    Step,
    Collect,
    Leave,
}

impl FromStr for Verb {
    type Err = Fault;

    ghost use Rattle.commands.specs.declared.Fault.TheVariants.{Command};

    ghost from_str_gives = { λ word result. result ≡ ok_or (verb_of word) Command };

    fn from_str(word: &str) -> Result<Verb, Fault> {
        match word {
            "marks" => Ok(Verb::Marks),
            "rows" => Ok(Verb::Rows),
            "put" => Ok(Verb::Put),
            "take" => Ok(Verb::Take),
            "step" => Ok(Verb::Step),
            "collect" => Ok(Verb::Collect),
            "leave" => Ok(Verb::Leave),
            _ => Err(Fault::Command),
        }
    }
}

// The verb that a word is. A word that is no UTF-8 is none. It is matched as text, since a `match` on bytes is a
// test a byte.
fn verb_of(word: &[u8]) -> Result<Verb, Fault>
    ensures { result ≡ ok_or (verb_of word.now) Fault.Command }
{
    match std::str::from_utf8(word) {
        Ok(word) => word.parse(),
        Err(_) => Err(Fault::Command),
    }
}

impl Lexer<'_> {
    // The next token, which has to be a number of at most this.
    fn number(&mut self, most: u32) -> Result<u32, Fault>
        ensures value { result ≡ ok_or (number_next most (words_left self.old)) Fault.Number }
        ensures rest { words_left self.new ≡ others (words_left self.old) }
    {
        match self.next() {
            Some(Token::Number(value)) if value <= most => Ok(value),
            Some(Token::Number(_) | Token::Word(_)) | None => Err(Fault::Number),
        }
    }

    // The next token, which has to be the number of a bay, or of bays.
    fn bay(&mut self) -> Result<Bay, Fault>
        ensures value { result ≡ ok_or (number_next most_bay (words_left self.old)) Fault.Number }
        ensures rest { words_left self.new ≡ others (words_left self.old) }
    {
        Bay::try_from(self.number(u32::MAX)?).map_err(|_| Fault::Number)
    }

    // The command of a verb, with the numbers that follow it.
    fn command(&mut self, verb: Verb) -> Result<Command, Fault>
        ensures { then_only result (words_left self.new) ≡ following verb (words_left self.old) }
    {
        match verb {
            Verb::Marks => Ok(Command::Marks(self.number(MOST_LENGTH)?, self.bay()?)),
            Verb::Rows => Ok(Command::Rows(self.number(MOST_LENGTH)?, self.bay()?)),
            Verb::Put => Ok(Command::Put(self.bay()?, self.number(u32::MAX)?)),
            Verb::Take => Ok(Command::Take(self.bay()?)),
            Verb::Step => Ok(Command::Step(self.bay()?)),
            Verb::Collect => Ok(Command::Collect(self.bay()?)),
            Verb::Leave => Ok(Command::Leave(self.bay()?)),
        }
    }
}

impl TryFrom<&[u8]> for Command {
    type Error = Fault;

    ghost try_from_gives = { λ line result. result ≡ command_of line.now };

    // The command of a line.
    fn try_from(line: &[u8]) -> Result<Command, Fault> {
        let mut lexer = Lexer::over(line);
        let Some(Token::Word(word)) = lexer.next() else {
            return Err(Fault::Command);
        };
        let command = lexer.command(verb_of(word)?)?;
        match lexer.next() {
            None => Ok(command),
            Some(_) => Err(Fault::Rest),
        }
    }
}

impl From<Fault> for u8 {
    ghost from_gives = { λ fault number. number ≡ fault_number fault };

    // The number by which the fault is printed.
    fn from(fault: Fault) -> u8 {
        fault as u8
    }
}

impl<'a> Schedule<'a> {
    /// The schedule of this text.
    pub fn new(text: &'a [u8]) -> Schedule<'a>
        ensures { lines_left result ≡ lines_of text.now }
    {
        Schedule { text }
    }
}

/// Gives the command of each line, or its fault.
impl Iterator for Schedule<'_> {
    type Item = Result<Command, Fault>;

    ghost next_gives = { λ s read t. (read, lines_left t) ≡ next_command (lines_left s) };

    ghost remaining = { item_count lines_left };

    fn next(&mut self) -> Option<Result<Command, Fault>> {
        if self.text.is_empty() {
            return None;
        }
        let (line, rest) = cut(self.text, b'\n');
        self.text = rest.unwrap_or(&[]);
        Some(Command::try_from(line))
    }
}
