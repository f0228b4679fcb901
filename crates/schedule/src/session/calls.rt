// The dock's calls, handed the session's own trays and book.
ghost use Rattle.board.specs.Kinds.{most};
ghost use Rattle.dock_rules.specs.Calls.{Open, Put, Step};
ghost use Rattle.dock_rules.specs.Runs.{Begins};
ghost use Rattle.dock.specs.Answered.{open_answer, start_answer, step_answer, Out};
ghost use Rattle.schedule.specs.Desks.{lifetime, base, settled};
ghost use Rattle.schedule.specs.Sessions.{game_of, Made, Moved};

use crate::session::Session;
use crate::{BASE, LIFETIME};
use dock::Receipt;
use dock_rules::{Refusal, Stepped};
use slot_memory::Bay;

impl Session<'_> {
    pub(crate) fn open(&mut self, bays: Bay) -> Result<(), Refusal>
        ensures made { Made self.old (Open bays lifetime base) (open_answer result) self.new }
        ensures begins { Begins (most (game_of self.old).kind) (game_of self.old).world bays base (open_answer result) (game_of self.new).world }
    {
        self.dock.open(bays, LIFETIME, BASE)
    }

    pub(super) fn put(&mut self, bay: Bay, word: u32) -> Result<u32, Refusal>
        ensures { Made self.old (Put bay word) (start_answer result) self.new }
    {
        self.dock.put(bay, word, self.trays.as_mut_slice())
    }

    pub(super) fn step(&mut self, bay: Bay) -> Result<Stepped, Refusal>
        ensures { Made self.old (Step bay) (step_answer result) self.new }
    {
        self.dock.step(bay, self.trays.as_mut_slice())
    }

    // Enters the receipt's element in the book, or waives it where that is refused. No call of the dock does both, since
    // it would be public and need the `requires`.
    pub(super) fn settle(&mut self, receipt: Receipt)
        requires { Out self.old.dock.state receipt }
        ensures { Moved (λ d. settled d receipt.bay receipt.serial) self.old self.new }
    {
        match self
            .dock
            .enter(receipt, self.trays.as_slice(), &mut self.book)
        {
            Ok(()) => {}
            Err((_, back)) => match self.dock.waive(back) {
                Ok(()) => {}
                Err((_, _)) => unreachable!(),
            },
        }
    }
}
