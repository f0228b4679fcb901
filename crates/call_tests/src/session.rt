// Calls on a dock by a caller who has at most one receipt in hand, and never loses it.
ghost use Rattle.std.specs.Prelude.{◌≡◌};
ghost use Rattle.dock.specs.Answered.{Out, StaysBut};
ghost use Rattle.call_tests.specs.Hand.{Closes, InHand, InHand-prop, Parted, Spent, receipt_of_collect, receipt_of_abandon, receipt_of_spend};

use dock::{Book, Collected, Dock, Left, Receipt};
use dock_rules::{Abandoned, Outcome, Refusal, Stepped};
use slot_memory::{Bay, SlotMemory};

/// What a call was answered, and the receipt that came with it: of a take that is closed, or one that was
/// refused and is given back.
pub(crate) struct Reply<T> {
    answer: Result<T, Refusal>,
    receipt: Option<Receipt>,
}

impl From<Result<Collected, Refusal>> for Reply<Outcome> {
    ghost from_gives = { λ collected reply. reply.receipt ≡ receipt_of_collect collected };

    fn from(collected: Result<Collected, Refusal>) -> Reply<Outcome> {
        match collected {
            Ok(collected) => {
                let (outcome, receipt) = collected.into_parts();
                Reply {
                    answer: Ok(outcome),
                    receipt,
                }
            }
            Err(refusal) => Reply {
                answer: Err(refusal),
                receipt: None,
            },
        }
    }
}

impl From<Result<Left, Refusal>> for Reply<Abandoned> {
    ghost from_gives = { λ left reply. reply.receipt ≡ receipt_of_abandon left };

    fn from(left: Result<Left, Refusal>) -> Reply<Abandoned> {
        match left {
            Ok(left) => {
                let (abandoned, receipt) = left.into_parts();
                Reply {
                    answer: Ok(abandoned),
                    receipt,
                }
            }
            Err(refusal) => Reply {
                answer: Err(refusal),
                receipt: None,
            },
        }
    }
}

impl From<Result<(), (Refusal, Receipt)>> for Reply<()> {
    ghost from_gives = { λ spent reply. reply.receipt ≡ receipt_of_spend spent };

    fn from(spent: Result<(), (Refusal, Receipt)>) -> Reply<()> {
        let (answer, receipt) = match spent {
            Ok(()) => (Ok(()), None),
            Err((refusal, receipt)) => (Err(refusal), Some(receipt)),
        };
        Reply { answer, receipt }
    }
}

// These two stay apart: over a closure that makes the call, which was tried, what the dock promises of it is not known.
fn collect<M: SlotMemory>(dock: &mut Dock<M>, bay: Bay, serial: u32) -> Reply<Outcome>
    ensures { Closes dock.old.state bay serial result.receipt dock.new.state }
{
    Reply::from(dock.collect(bay, serial))
}

fn abandon<M: SlotMemory>(dock: &mut Dock<M>, bay: Bay, serial: u32) -> Reply<Abandoned>
    ensures { Closes dock.old.state bay serial result.receipt dock.new.state }
{
    Reply::from(dock.abandon(bay, serial))
}

// Spends a receipt that is out.
fn waive<M: SlotMemory>(dock: &mut Dock<M>, receipt: Receipt)
    requires { Out dock.old.state receipt }
    ensures { StaysBut receipt.bay dock.old.state dock.new.state }
{
    dock.waive(receipt).unwrap();
}

// Spends the receipt, if there is one.
fn release<M: SlotMemory>(dock: &mut Dock<M>, hand: Option<Receipt>)
    requires { InHand dock.old.state hand }
    ensures { Spent hand dock.old.state dock.new.state }
{
    match hand {
        Some(receipt) => waive(dock, receipt),
        None => {}
    }
}

/// A dock, and the receipt of it that its caller has in hand, if any.
pub(crate) struct Session<M: SlotMemory> {
    dock: Dock<M>,
    hand: Option<Receipt>,
    ghost held: { InHand dock.state hand } by { InHand-prop dock.state hand },
}

impl<M: SlotMemory> Session<M> {
    /// A shut dock over the memory, and an empty hand.
    pub(crate) fn new(memory: M) -> Session<M> {
        Session {
            dock: Dock::new(memory),
            hand: None,
        }
    }

    // These four hand out no receipt and spend none, so that the one in hand stays out.

    pub(crate) fn open(&mut self, bays: Bay, lifetime: u32, base: u32) -> Result<(), Refusal> {
        self.dock.open(bays, lifetime, base)
    }

    pub(crate) fn put(
        &mut self,
        bay: Bay,
        element: M::Element,
        trays: &mut [M::Element],
    ) -> Result<u32, Refusal> {
        self.dock.put(bay, element, trays)
    }

    pub(crate) fn take(&mut self, bay: Bay) -> Result<u32, Refusal> {
        self.dock.take(bay)
    }

    pub(crate) fn step(&mut self, bay: Bay, trays: &mut [M::Element]) -> Result<Stepped, Refusal> {
        self.dock.step(bay, trays)
    }

    // Puts the receipt that came into an empty hand; where the hand is full it is waived.
    fn keep(&mut self, came: Option<Receipt>)
        requires out { InHand self.old.dock.state came }
        requires parted { Parted self.old.hand came }
    {
        if self.hand.is_some() {
            release(&mut self.dock, came);
        } else {
            let empty = std::mem::replace(&mut self.hand, came);
            release(&mut self.dock, empty);
        }
    }

    /// Collects a call, and keeps the receipt of a take.
    pub(crate) fn collect(&mut self, bay: Bay, serial: u32) -> Result<Outcome, Refusal> {
        let Reply { answer, receipt } = collect(&mut self.dock, bay, serial);
        self.keep(receipt);
        answer
    }

    /// Collects a call, and waives the receipt of a take.
    pub(crate) fn collect_and_waive(&mut self, bay: Bay, serial: u32) -> Result<Outcome, Refusal> {
        let Reply { answer, receipt } = collect(&mut self.dock, bay, serial);
        release(&mut self.dock, receipt);
        answer
    }

    /// Abandons a call, and keeps the receipt of a take.
    pub(crate) fn abandon(&mut self, bay: Bay, serial: u32) -> Result<Abandoned, Refusal> {
        let Reply { answer, receipt } = abandon(&mut self.dock, bay, serial);
        self.keep(receipt);
        answer
    }

    /// Enters the receipt in hand, in a book of this row with so many entered. A refused one is in hand
    /// again.
    // A row and a count, since the check has no rule for a `Book` that is made of the bench's fields or kept there.
    pub(crate) fn enter(
        &mut self,
        trays: &[M::Element],
        row: &mut [M::Element],
        entered: &mut usize,
    ) -> Option<Result<(), Refusal>> {
        let receipt = self.hand.take()?;
        let mut book = Book {
            row,
            entered: *entered,
        };
        let Reply { answer, receipt } = Reply::from(self.dock.enter(receipt, trays, &mut book));
        *entered = book.entered;
        self.keep(receipt);
        Some(answer)
    }

    /// Waives the receipt in hand. A refused one is in hand again.
    pub(crate) fn waive(&mut self) -> Option<Result<(), Refusal>> {
        let receipt = self.hand.take()?;
        let Reply { answer, receipt } = Reply::from(self.dock.waive(receipt));
        self.keep(receipt);
        Some(answer)
    }

    /// Offers the receipt in hand to another dock, to be entered and to be waived, once a receipt that is
    /// in hand there is waived. One that is refused is in hand again.
    pub(crate) fn offer<N: SlotMemory>(
        &mut self,
        away: &mut Session<N>,
        trays: &[N::Element],
        row: &mut [N::Element],
        entered: &mut usize,
    ) -> Option<(Result<(), Refusal>, Result<(), Refusal>)> {
        release(&mut away.dock, away.hand.take());
        let receipt = self.hand.take()?;
        let mut book = Book {
            row,
            entered: *entered,
        };
        let Reply { answer, receipt } = Reply::from(away.dock.enter(receipt, trays, &mut book));
        *entered = book.entered;
        let Reply {
            answer: waived,
            receipt,
        } = match receipt {
            Some(receipt) => Reply::from(away.dock.waive(receipt)),
            None => Reply::from(Ok(())),
        };
        self.keep(receipt);
        Some((answer, waived))
    }

    /// Collects the call of one bay and serial here and at another dock. Where a receipt comes of both,
    /// each caller has the other's in hand then: they are known by bay and serial alone.
    pub(crate) fn swap<N: SlotMemory>(
        &mut self,
        other: &mut Session<N>,
        bay: Bay,
        serial: u32,
    ) -> (Result<Outcome, Refusal>, Result<Outcome, Refusal>) {
        let Reply {
            answer: here,
            receipt: ours,
        } = collect(&mut self.dock, bay, serial);
        let Reply {
            answer: there,
            receipt: theirs,
        } = collect(&mut other.dock, bay, serial);
        match (ours, theirs) {
            (Some(ours), Some(theirs)) => {
                self.keep(Some(theirs));
                other.keep(Some(ours));
            }
            (ours, theirs) => {
                self.keep(ours);
                other.keep(theirs);
            }
        }
        (here, there)
    }

    /// Spends the receipt that is still in hand.
    pub(crate) fn end(self)
    where
        M: Drop,
    {
        let Session { mut dock, hand } = self;
        release(&mut dock, hand);
    }
}
