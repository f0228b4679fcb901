// How a command is obeyed on an open dock.
ghost use Rattle.std.specs.Prelude.{◌≡◌, slice_index};
ghost use Rattle.dock_rules.specs.Calls.{Open, Put, Take, Step, Collect, Abandon};
ghost use Rattle.dock.specs.Answered.{stood};
ghost use Rattle.schedule.specs.Responses.{response_to};
ghost use Rattle.schedule.specs.Desks.{lifetime, base, make, response, last_of, starts, finishes, obeyed, heeded};
ghost use Rattle.schedule.specs.Ended.{ended_response, ended_desk, OwedOut};
ghost use Rattle.schedule.specs.Sessions.{said, Moved, Turned};

use crate::Response;
use crate::session::Session;
use crate::session::ended::Ended;
use commands::{Command, Fault};
use dock_rules::{Outcome, Refusal, Stepped};
use slot_memory::Bay;

impl Session<'_> {
    // An open on a dock that is open already: the dock turns it down.
    fn open_again(&mut self, bays: Bay) -> Result<Response, Refusal>
        ensures { Turned (λ d. (response 0 (make d (Open bays lifetime base)), (make d (Open bays lifetime base)).1)) self.old (said result) self.new }
    {
        self.open(bays)?;
        Ok(Response::Open)
    }

    fn start_put(&mut self, bay: Bay, word: u32) -> Result<Response, Refusal>
        ensures { Turned (λ d. starts bay (make d (Put bay word))) self.old (said result) self.new }
    {
        let serial = self.put(bay, word)?;
        Ok(self.note(bay, serial))
    }

    fn start_take(&mut self, bay: Bay) -> Result<Response, Refusal>
        ensures { Turned (λ d. starts bay (make d (Take bay))) self.old (said result) self.new }
    {
        let serial = self.dock.take(bay)?;
        Ok(self.note(bay, serial))
    }

    // How a step is answered.
    fn stood(&self, bay: Bay, stepped: Stepped) -> Response
        ensures { result ≡ response_to (stood stepped) (slice_index self.now.trays.items bay) }
    {
        match stepped {
            Stepped::At(line) => Response::Stands(line),
            Stepped::Ended(Outcome::Full) => Response::Full,
            Stepped::Ended(Outcome::Stored) => Response::Stored,
            Stepped::Ended(Outcome::Empty) => Response::Empty,
            Stepped::Ended(Outcome::Taken) => Response::Taken(self.tray(bay)),
        }
    }

    fn run_line(&mut self, bay: Bay) -> Result<Response, Refusal>
        ensures { Turned (λ d. (response bay (make d (Step bay)), (make d (Step bay)).1)) self.old (said result) self.new }
    {
        let stepped = self.step(bay)?;
        Ok(self.stood(bay, stepped))
    }

    // Answers a call that is done with. A take's receipt is settled, and the element in its tray answered.
    fn finish(&mut self, bay: Bay, ended: Ended) -> Response
        requires { OwedOut self.old.dock.state ended }
        ensures response { result ≡ ended_response ended (slice_index self.old.trays.items bay) }
        ensures moved { Moved (λ d. ended_desk ended d) self.old self.new }
    {
        match ended {
            Ended::Answered(response) => response,
            Ended::Owed(receipt) => {
                let word = self.tray(bay);
                self.settle(receipt);
                Response::Taken(word)
            }
        }
    }

    // As `leave`, but for the dock's one call: passed as a closure it would bring its contract into the clause.
    fn collect(&mut self, bay: Bay) -> Result<Response, Refusal>
        ensures { Turned (λ d. finishes bay (last_of d bay) (make d (Collect bay (last_of d bay)))) self.old (said result) self.new }
    {
        let serial = self.serial(bay);
        let collected = self.dock.collect(bay, serial)?;
        Ok(self.finish(bay, Ended::from(collected)))
    }

    fn leave(&mut self, bay: Bay) -> Result<Response, Refusal>
        ensures { Turned (λ d. finishes bay (last_of d bay) (make d (Abandon bay (last_of d bay)))) self.old (said result) self.new }
    {
        let serial = self.serial(bay);
        let left = self.dock.abandon(bay, serial)?;
        Ok(self.finish(bay, Ended::from(left)))
    }

    // Obeys one command. A `match`, since each command goes to a method with numbers of its own.
    fn obey(&mut self, command: Command) -> Result<Response, Refusal>
        ensures { Turned (λ d. obeyed d command) self.old (said result) self.new }
    {
        match command {
            Command::Marks(_, bays) | Command::Rows(_, bays) => self.open_again(bays),
            Command::Put(bay, word) => self.start_put(bay, word),
            Command::Take(bay) => self.start_take(bay),
            Command::Step(bay) => self.run_line(bay),
            Command::Collect(bay) => self.collect(bay),
            Command::Leave(bay) => self.leave(bay),
        }
    }

    /// Answers a line: obeys its command, or names its fault.
    pub(crate) fn heed(&mut self, read: Result<Command, Fault>) -> Response
        ensures { Turned (λ d. heeded d read) self.old result self.new }
    {
        match read {
            Ok(command) => self.obey(command).unwrap_or_else(Response::Refused),
            Err(fault) => Response::Fault(fault),
        }
    }
}
