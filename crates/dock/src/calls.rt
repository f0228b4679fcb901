// The calls on a dock. Each is turned down for the first reason that applies, in the order of
// `Refusal`, and then alters nothing. The clauses `kept`, `fixed` and `stays` stand in each call: they tie the dock
// before it to the dock after it, which no type does. Bay and serial, and bay and trays, are two parameters
// each, as callers keep them.
ghost use Rattle.std.specs.Prelude.{◌≡◌, ◌+◌, ◌<◌, true, [], ◌∷◌, length, is_ok, MatchResult, OnErr};
ghost use Rattle.slot_memory.specs.Rules.{Clear, Done};
ghost use Rattle.dock_rules.specs.Calls.{Open, Put, Take, Step, Collect, Abandon, Enter, Waive, good_length, record_of, left_at};
ghost use Rattle.dock.specs.Answered.{open_answer, start_answer, step_answer, collect_answer, abandon_answer, settle_answer, CollectedFor, LeftFor, GivenBack, CollectedOut, LeftOut, RefusedLeaves, Out, Stays, StaysBut};
ghost use Rattle.dock.specs.Checks.{Checks, Begins, shut, other_trays, no_bay, busy, worn, no_receipt, full};
ghost use Rattle.dock.specs.Found.{FoundOf};
ghost use Rattle.dock.specs.Does.{Does, DoesAlone, DoesOver, Carries, CarriesAlone, CarriesOver, StartsAlone, Ran, shut_state, book_of, world};

use crate::lines::run;
use crate::{Book, Collected, Dock, Left, Receipt};
use dock_rules::{Abandoned, Attempt, BayRecord, DockState, Line, Outcome, Refusal, Stepped};
use slot_memory::{BAYS, Bay, SlotMemory};

/// A dock that has not been opened.
const SHUT: DockState = DockState {
    opened: false,
    bays: 0,
    lifetime: 0,
    started: 0,
    records: [BayRecord::Free; BAYS as usize],
};

/// The longest ring.
const LONGEST: u32 = 1024;

/// The most calls that a dock may be opened for.
const LONGEST_LIFE: u32 = 2_147_483_648;

impl<M: SlotMemory> Dock<M> {
    /// A shut dock over the memory.
    pub fn new(memory: M) -> Dock<M>
        ensures memory { result.memory ≡ memory }
        ensures state { result.state ≡ shut_state }
    {
        Dock {
            memory,
            state: SHUT,
        }
    }

    /// Opens the dock with so many bays, all free, for so many calls; clears the memory and sets both
    /// indices to the base.
    pub fn open(&mut self, bays: Bay, lifetime: u32, base: u32) -> Result<(), Refusal>
        ensures does { DoesAlone M.SlotMemory self.old (Open bays lifetime base) (open_answer result) self.new }
        ensures law { StartsAlone M.SlotMemory self.old bays lifetime base (open_answer result) self.new }
        ensures exact { MatchResult result (λ _. M.SlotMemory.exactly self.old.memory (Clear base) Done self.new.memory) (λ _. self.new.memory ≡ self.old.memory) }
        ensures fixed { M.SlotMemory.limit self.new.memory ≡ M.SlotMemory.limit self.old.memory }
        ensures stays { Stays self.old.state self.new.state }
    {
        if self.state.opened {
            return Err(Refusal::Open);
        }
        if !fits_ring(self.memory.length()) {
            return Err(Refusal::Length);
        }
        if !(1..=BAYS).contains(&bays) {
            return Err(Refusal::Bays);
        }
        if !(1..=LONGEST_LIFE).contains(&lifetime) {
            return Err(Refusal::Life);
        }
        self.memory.clear(base);
        self.state = DockState {
            opened: true,
            bays,
            lifetime,
            ..SHUT
        };
        Ok(())
    }

    /// Starts a put of the element, which goes into the bay's tray at once. Answers the call's serial.
    pub fn put(
        &mut self,
        bay: Bay,
        element: M::Element,
        trays: &mut [M::Element],
    ) -> Result<u32, Refusal>
        ensures does { DoesOver M.SlotMemory self.old trays.old (Put bay element) (start_answer result) self.new trays.new }
        ensures law { CarriesOver M.SlotMemory self.old trays.old (Put bay element) (start_answer result) self.new trays.new }
        ensures kept { self.new.memory ≡ self.old.memory }
        ensures stays { Stays self.old.state self.new.state }
    {
        self.check_trays(trays)?;
        let serial = self.begin(bay, Line::E5)?;
        trays[bay as usize] = element;
        Ok(serial)
    }

    /// Starts a take. Answers the call's serial.
    pub fn take(&mut self, bay: Bay) -> Result<u32, Refusal>
        ensures does { DoesAlone M.SlotMemory self.old (Take bay) (start_answer result) self.new }
        ensures law { CarriesAlone M.SlotMemory self.old (Take bay) (start_answer result) self.new }
        ensures kept { self.new.memory ≡ self.old.memory }
        ensures stays { Stays self.old.state self.new.state }
    {
        self.check_open()?;
        self.begin(bay, Line::D5)
    }

    /// Runs the line at which the bay's call stands. Answers where the call stands then, or how it
    /// ended.
    pub fn step(&mut self, bay: Bay, trays: &mut [M::Element]) -> Result<Stepped, Refusal>
        ensures does { DoesOver M.SlotMemory self.old trays.old (Step bay) (step_answer result) self.new trays.new }
        ensures law { CarriesOver M.SlotMemory self.old trays.old (Step bay) (step_answer result) self.new trays.new }
        ensures exact { MatchResult result (λ s. Ran M.SlotMemory self.old trays.old bay s self.new trays.new) (λ _. self.new.memory ≡ self.old.memory) }
        ensures fixed { M.SlotMemory.limit self.new.memory ≡ M.SlotMemory.limit self.old.memory }
        ensures stays { Stays self.old.state self.new.state }
    {
        self.check_trays(trays)?;
        let BayRecord::UnderWay(mut call) = self.record(bay)? else {
            return Err(Refusal::Idle);
        };
        let stepped = run(&mut self.memory, bay, &mut call, trays);
        self.state.records[bay as usize] = match stepped {
            Stepped::At(line) => BayRecord::UnderWay(Attempt { line, ..call }),
            Stepped::Ended(outcome) => BayRecord::Ended(call.serial, outcome),
        };
        Ok(stepped)
    }

    /// Answers how the bay's call of that serial ended. The bay is free then, unless an element lies in
    /// its tray.
    pub fn collect(&mut self, bay: Bay, serial: u32) -> Result<Collected, Refusal>
        ensures does { DoesAlone M.SlotMemory self.old (Collect bay serial) (collect_answer result) self.new }
        ensures law { CarriesAlone M.SlotMemory self.old (Collect bay serial) (collect_answer result) self.new }
        ensures kept { self.new.memory ≡ self.old.memory }
        ensures receipt { CollectedFor bay serial result }
        ensures out { CollectedOut self.new.state result }
        ensures stays { Stays self.old.state self.new.state }
    {
        let Stepped::Ended(outcome) = self.call_of(bay, serial)? else {
            return Err(Refusal::Early);
        };
        // A match of its own here and in `abandon`: each answers its own words, of which one has the receipt.
        let (after, collected) = match outcome {
            Outcome::Full => (BayRecord::Free, Collected::Full),
            Outcome::Stored => (BayRecord::Free, Collected::Stored),
            Outcome::Empty => (BayRecord::Free, Collected::Empty),
            Outcome::Taken => (
                BayRecord::Owed(serial),
                Collected::Taken(Receipt { bay, serial }),
            ),
        };
        self.state.records[bay as usize] = after;
        Ok(collected)
    }

    /// Gives up the bay's call of that serial, which is under way. Answers what became of its element.
    /// The bay is free then, unless an element lies in its tray.
    pub fn abandon(&mut self, bay: Bay, serial: u32) -> Result<Left, Refusal>
        ensures does { DoesAlone M.SlotMemory self.old (Abandon bay serial) (abandon_answer result) self.new }
        ensures law { CarriesAlone M.SlotMemory self.old (Abandon bay serial) (abandon_answer result) self.new }
        ensures kept { self.new.memory ≡ self.old.memory }
        ensures receipt { LeftFor bay serial result }
        ensures out { LeftOut self.new.state result }
        ensures stays { Stays self.old.state self.new.state }
    {
        let Stepped::At(line) = self.call_of(bay, serial)? else {
            return Err(Refusal::Late);
        };
        let (after, left) = match left_at(line) {
            Abandoned::Untouched => (BayRecord::Free, Left::Untouched),
            Abandoned::Stored => (BayRecord::Free, Left::Stored),
            Abandoned::Taken => (
                BayRecord::Owed(serial),
                Left::Taken(Receipt { bay, serial }),
            ),
        };
        self.state.records[bay as usize] = after;
        Ok(left)
    }

    /// Copies the element of the receipt's tray to the end of the book, and frees the bay. A refused
    /// receipt is given back.
    // In a pair: a struct for it would be taken apart by every caller at once.
    pub fn enter(
        &mut self,
        receipt: Receipt,
        trays: &[M::Element],
        book: &mut Book<'_, M::Element>,
    ) -> Result<(), (Refusal, Receipt)>
        ensures does { Does (M.SlotMemory.limit self.old.memory) (world M.SlotMemory self.old trays.now (book_of book.old)) (Enter receipt.bay receipt.serial) (settle_answer result) (world M.SlotMemory self.new trays.now (book_of book.new)) }
        ensures law { Carries (M.SlotMemory.limit self.old.memory) (world M.SlotMemory self.old trays.now (book_of book.old)) (Enter receipt.bay receipt.serial) (settle_answer result) (world M.SlotMemory self.new trays.now (book_of book.new)) }
        ensures kept { self.new.memory ≡ self.old.memory }
        ensures receipt { GivenBack receipt result }
        ensures unmoved { RefusedLeaves self.old.state result self.new.state }
        ensures granted { Out self.old.state receipt → length trays.now ≡ self.old.state.bays → book.old.entered < length book.old.row.now → is_ok result ≡ true }
        ensures lent { book.new.row.ghost_name ≡ book.old.row.ghost_name }
        ensures stays { StaysBut receipt.bay self.old.state self.new.state }
    {
        if let Err(why) = self.check_entry(&receipt, trays, book) {
            return Err((why, receipt));
        }
        let Receipt { bay, serial: _ } = receipt;
        book.row[book.entered] = trays[bay as usize];
        book.entered += 1;
        self.state.records[bay as usize] = BayRecord::Free;
        Ok(())
    }

    /// Frees the receipt's bay and lets its element go. A refused receipt is given back.
    pub fn waive(&mut self, receipt: Receipt) -> Result<(), (Refusal, Receipt)>
        ensures does { DoesAlone M.SlotMemory self.old (Waive receipt.bay receipt.serial) (settle_answer result) self.new }
        ensures law { CarriesAlone M.SlotMemory self.old (Waive receipt.bay receipt.serial) (settle_answer result) self.new }
        ensures kept { self.new.memory ≡ self.old.memory }
        ensures receipt { GivenBack receipt result }
        ensures unmoved { RefusedLeaves self.old.state result self.new.state }
        ensures granted { Out self.old.state receipt → is_ok result ≡ true }
        ensures stays { StaysBut receipt.bay self.old.state self.new.state }
    {
        if let Err(why) = self.check_waiver(&receipt) {
            return Err((why, receipt));
        }
        let Receipt { bay, serial: _ } = receipt;
        self.state.records[bay as usize] = BayRecord::Free;
        Ok(())
    }
}

// What the calls have in common. A check answers the first of its reasons that applies.
impl<M: SlotMemory> Dock<M> {
    // The dock is open.
    fn check_open(&self) -> Result<(), Refusal>
        ensures { let d = self.now.state in Checks (shut d ∷ []) (λ _. d.opened ≡ true) result }
    {
        if self.state.opened {
            Ok(())
        } else {
            Err(Refusal::Shut)
        }
    }

    // It is open, and as many trays are handed over as it has bays.
    fn check_trays(&self, handed: &[M::Element]) -> Result<(), Refusal>
        ensures { let d = self.now.state in Checks (shut d ∷ other_trays d (length handed.now) ∷ []) (λ _. (d.opened ≡ true) × (length handed.now ≡ d.bays)) result }
    {
        self.check_open()?;
        if handed.len() == self.state.bays as usize {
            Ok(())
        } else {
            Err(Refusal::Trays)
        }
    }

    // The record of the bay of that number.
    fn record(&self, bay: Bay) -> Result<BayRecord, Refusal>
        ensures { let d = self.now.state in Checks (no_bay d bay ∷ []) (λ found. (bay < d.bays) × (found ≡ record_of d bay)) result }
    {
        if bay < self.state.bays {
            Ok(self.state.records[bay as usize])
        } else {
            Err(Refusal::Bay)
        }
    }

    // Starts a call at the bay, if it is free and calls are left. Answers the call's serial.
    fn begin(&mut self, bay: Bay, line: Line) -> Result<u32, Refusal>
        ensures begins { let d = self.old.state in Checks (no_bay d bay ∷ busy d bay ∷ worn d ∷ []) (λ serial. Begins d bay line serial self.new.state) result }
        ensures unmoved { OnErr result (self.new.state ≡ self.old.state) }
        ensures memory { self.new.memory ≡ self.old.memory }
    {
        if self.record(bay)? != BayRecord::Free {
            return Err(Refusal::Busy);
        }
        if self.state.started >= self.state.lifetime {
            return Err(Refusal::Worn);
        }
        let serial = self.state.started + 1;
        self.state.started = serial;
        self.state.records[bay as usize] = BayRecord::UnderWay(Attempt {
            serial,
            line,
            index: 0,
            held: false,
        });
        Ok(serial)
    }

    // Where the bay's call of that serial stands, or how it has ended.
    fn call_of(&self, bay: Bay, serial: u32) -> Result<Stepped, Refusal>
        ensures { FoundOf self.now.state bay serial result }
    {
        self.check_open()?;
        match self.record(bay)? {
            BayRecord::UnderWay(call) if call.serial == serial => Ok(Stepped::At(call.line)),
            BayRecord::Ended(of, outcome) if of == serial => Ok(Stepped::Ended(outcome)),
            _ => Err(Refusal::Serial),
        }
    }

    // The bay of the receipt holds it.
    fn check_owed(&self, receipt: &Receipt) -> Result<(), Refusal>
        ensures { let d = self.now.state in let x = receipt.now in Checks (no_bay d x.bay ∷ no_receipt d x.bay x.serial ∷ []) (λ _. (x.bay < d.bays) × (record_of d x.bay ≡ BayRecord.Owed x.serial)) result }
    {
        match self.record(receipt.bay)? {
            BayRecord::Owed(serial) if serial == receipt.serial => Ok(()),
            _ => Err(Refusal::Serial),
        }
    }

    // The receipt's element may be entered into the book.
    fn check_entry(
        &self,
        receipt: &Receipt,
        trays: &[M::Element],
        book: &Book<'_, M::Element>,
    ) -> Result<(), Refusal>
        ensures { let d = self.now.state in let x = receipt.now in Checks (shut d ∷ other_trays d (length trays.now) ∷ no_bay d x.bay ∷ no_receipt d x.bay x.serial ∷ full book.now ∷ []) (λ _. Out d x × (length trays.now ≡ d.bays) × (book.now.entered < length book.now.row.now)) result }
    {
        self.check_trays(trays)?;
        self.check_owed(receipt)?;
        if book.entered < book.row.len() {
            Ok(())
        } else {
            Err(Refusal::Book)
        }
    }

    // The receipt may be waived.
    fn check_waiver(&self, receipt: &Receipt) -> Result<(), Refusal>
        ensures { let d = self.now.state in let x = receipt.now in Checks (shut d ∷ no_bay d x.bay ∷ no_receipt d x.bay x.serial ∷ []) (λ _. Out d x) result }
    {
        self.check_open()?;
        self.check_owed(receipt)
    }
}

// Whether a ring may have this many slots.
fn fits_ring(length: u32) -> bool
    ensures { result ≡ good_length length }
{
    length <= LONGEST && length.is_power_of_two()
}

// What becomes of a call that is given up at this line.
fn left_at(line: Line) -> Abandoned
    ensures { result ≡ left_at line }
{
    match line {
        Line::E16 | Line::E17 => Abandoned::Stored,
        Line::D16 | Line::D17 => Abandoned::Taken,
        _ => Abandoned::Untouched,
    }
}
