// The bench: makes the calls of a table in their order, and checks each answer.
use crate::elements::{Item, Sample};
use crate::judge::Judge;
use crate::session::Session;
use crate::table::{Act, Closing, Look};
use dock_rules::{Line, Outcome, Refusal, Stepped};
use slot_memory::{Bay, SlotMemory};
use std::alloc::{AllocError, Global};
use std::process::Abort;

// More steps than any call of the tests takes.
const PATIENCE: usize = 64;

/// The caller's trays, of which so many are handed over: a count of its own, since a table lowers it and
/// raises it again.
#[derive(Drop)]
struct Trays<E: Copy> {
    all: Vec<E>,
    handed: usize,
}

impl<E: Copy> Trays<E> {
    // The trays that are handed over: so many of the first, or all of them.
    fn handed_over(&mut self) -> &mut [E] {
        let many = self.handed.min(self.all.len());
        &mut self.all.as_mut_slice()[0..many]
    }
}

/// What the caller of a dock keeps: trays, and a book.
#[derive(Drop)]
pub(crate) struct Desk<E: Copy> {
    trays: Trays<E>,
    // A row and a count, of which a call's `Book` is made, since a book holds a borrow.
    row: Vec<E>,
    /// How many are entered in the book's row.
    entered: usize,
}

impl<E: Sample> Desk<E> {
    /// So many trays and a book of that length, all blank.
    pub(crate) fn new(alloc: Global, trays: usize, book: usize) -> Result<Desk<E>, AllocError> {
        let all = vec![in alloc; E::of(Item::Blank); trays]?;
        let row = vec![in alloc; E::of(Item::Blank); book]?;
        Ok(Desk {
            trays: Trays { all, handed: trays },
            row,
            entered: 0,
        })
    }
}

/// A dock with its caller, and what the caller keeps.
// The judge is handed to the methods: the check has no rule for a struct of this kind that holds a borrow.
pub(crate) struct Bench<M: SlotMemory> {
    session: Session<M>,
    desk: Desk<M::Element>,
}

impl<M: SlotMemory> Bench<M>
where
    M::Element: Sample,
{
    /// A shut dock over the memory.
    pub(crate) fn new(memory: M, desk: Desk<M::Element>) -> Bench<M> {
        Bench {
            session: Session::new(memory),
            desk,
        }
    }

    fn look_at(&mut self, judge: &Judge<'_, impl Abort>, look: Look) {
        let desk = &mut self.desk;
        match look {
            Look::Trays(handed) => desk.trays.handed = handed,
            Look::Book(entered) => desk.entered = entered,
            Look::Tray(bay, due) => {
                let tray = desk.trays.all.get(bay as usize).copied();
                judge.same(tray, Some(M::Element::of(due)))
            }
            Look::Row(place, due) => {
                let entry = desk.row.get(place).copied();
                judge.same(entry, Some(M::Element::of(due)))
            }
            Look::Entered(due) => judge.same(desk.entered, due),
        }
    }

    fn enter(&mut self) -> Option<Result<(), Refusal>> {
        let desk = &mut self.desk;
        let trays = desk.trays.handed_over();
        self.session
            .enter(trays, desk.row.as_mut_slice(), &mut desk.entered)
    }

    // Nothing is answered of a receipt where none is in hand.
    fn close(&mut self, judge: &Judge<'_, impl Abort>, closing: Closing) {
        match closing {
            Closing::Collect(bay, serial, due) => {
                judge.same(self.session.collect(bay, serial), due)
            }
            Closing::Abandon(bay, serial, due) => {
                judge.same(self.session.abandon(bay, serial), due)
            }
            Closing::Enter(due) => judge.same(self.enter(), Some(due)),
            Closing::Waive(due) => judge.same(self.session.waive(), Some(due)),
        }
    }

    fn put(&mut self, bay: Bay, item: Item) -> Result<u32, Refusal> {
        let element = M::Element::of(item);
        let trays = self.desk.trays.handed_over();
        self.session.put(bay, element, trays)
    }

    fn step(&mut self, bay: Bay) -> Result<Stepped, Refusal> {
        let trays = self.desk.trays.handed_over();
        self.session.step(bay, trays)
    }

    // Takes so many steps, and checks where the last leaves the call.
    fn reach(&mut self, judge: &Judge<'_, impl Abort>, bay: Bay, steps: usize, due: Line) {
        let last = (0..steps).try_fold(Stepped::At(due), |_, _| self.step(bay));
        judge.same(last, Ok(Stepped::At(due)));
    }

    // Takes steps until the call ends, and checks how it does.
    fn finish(&mut self, judge: &Judge<'_, impl Abort>, bay: Bay, due: Outcome) {
        let last = (0..PATIENCE)
            .map(|_| self.step(bay))
            .find(|stepped| !matches!(stepped, Ok(Stepped::At(_))));
        judge.same(last, Some(Ok(Stepped::Ended(due))));
    }

    // Runs a call that began to its end, collects it, and waives its receipt, if it has one.
    fn complete(
        &mut self,
        judge: &Judge<'_, impl Abort>,
        bay: Bay,
        began: Result<u32, Refusal>,
        due: Outcome,
    ) {
        let serial = judge.granted(began);
        self.finish(judge, bay, due);
        judge.same(self.session.collect_and_waive(bay, serial), Ok(due));
    }

    fn take_whole(&mut self, judge: &Judge<'_, impl Abort>, bay: Bay, due: Option<Item>) {
        let began = self.session.take(bay);
        match due {
            Some(item) => {
                self.complete(judge, bay, began, Outcome::Taken);
                self.look_at(judge, Look::Tray(bay, item))
            }
            None => self.complete(judge, bay, began, Outcome::Empty),
        }
    }

    fn make(&mut self, judge: &Judge<'_, impl Abort>, act: Act) {
        match act {
            Act::Open(bays, lifetime, base, due) => {
                judge.same(self.session.open(bays, lifetime, base), due)
            }
            Act::Put(bay, item, due) => judge.same(self.put(bay, item), due),
            Act::Take(bay, due) => judge.same(self.session.take(bay), due),
            Act::Step(bay, due) => judge.same(self.step(bay), due),
            Act::Reach(bay, steps, line) => self.reach(judge, bay, steps, line),
            Act::Finish(bay, due) => self.finish(judge, bay, due),
            Act::PutWhole(bay, item, due) => {
                let began = self.put(bay, item);
                self.complete(judge, bay, began, due)
            }
            Act::TakeWhole(bay, due) => self.take_whole(judge, bay, due),
            Act::Close(closing) => self.close(judge, closing),
            Act::Look(look) => self.look_at(judge, look),
        }
    }

    /// Makes the calls in their order, and names the first whose answer is another.
    pub(crate) fn play(&mut self, judge: &mut Judge<'_, impl Abort>, acts: &[Act]) {
        for (i, act) in acts.iter().enumerate() {
            judge.call = i;
            self.make(judge, *act);
        }
    }

    /// Waives the receipt that is still in hand.
    pub(crate) fn end(self)
    where
        M: Drop,
    {
        let Bench { session, desk: _ } = self;
        session.end();
    }

    /// Offers the receipt in hand to another dock, with the trays and the book there: to be entered and to
    /// be waived. Both are refused, and it is in hand again.
    pub(crate) fn offer<N: SlotMemory>(
        &mut self,
        judge: &Judge<'_, impl Abort>,
        away: &mut Bench<N>,
        due: (Refusal, Refusal),
    ) {
        let desk = &mut away.desk;
        let trays = desk.trays.handed_over();
        let row = desk.row.as_mut_slice();
        let answers = self
            .session
            .offer(&mut away.session, trays, row, &mut desk.entered);
        judge.same(answers, Some((Err(due.0), Err(due.1))));
    }

    /// Collects the take of this bay and serial here and at another dock, and hands each its receipt to
    /// the other's caller.
    pub(crate) fn swap<N: SlotMemory>(
        &mut self,
        judge: &Judge<'_, impl Abort>,
        other: &mut Bench<N>,
        bay: Bay,
        serial: u32,
    ) {
        let answers = self.session.swap(&mut other.session, bay, serial);
        judge.same(answers, (Ok(Outcome::Taken), Ok(Outcome::Taken)));
    }
}
