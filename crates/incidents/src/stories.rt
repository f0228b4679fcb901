// The two incidents, as what is done in each bay and to its reader.
use crate::desk::Reader;
use crate::telling::Stage;
use std::io;
use visit::Visit;

/// The timber yard's visit in bay 0.
const YARD_FIRST: Visit = Visit {
    guard: 12,
    checkpoint: 3,
    minute: 610,
};

/// The timber yard's visit in bay 1.
const YARD_SECOND: Visit = Visit {
    guard: 40,
    checkpoint: 3,
    minute: 611,
};

/// The bus depot's first visit in bay 0.
const DEPOT_FIRST: Visit = Visit {
    guard: 7,
    checkpoint: 1,
    minute: 95,
};

/// The bus depot's second visit in bay 0.
const DEPOT_SECOND: Visit = Visit {
    guard: 7,
    checkpoint: 2,
    minute: 101,
};

/// The bus depot's visit in bay 1, which is held.
const DEPOT_HELD: Visit = Visit {
    guard: 31,
    checkpoint: 1,
    minute: 97,
};

impl<R: Print> Stage<'_, '_, R> {
    // Steps to the end of the call, and collects it.
    fn finish(&mut self, reader: &mut Reader) -> io::Result<()> {
        self.through(reader)?;
        self.collect(reader)
    }

    // A put from its start to its end.
    fn put_whole(&mut self, reader: &mut Reader, visit: Visit) -> io::Result<()> {
        self.put(reader, visit)?;
        self.finish(reader)
    }

    // A take from its start to its end.
    fn take_whole(&mut self, reader: &mut Reader) -> io::Result<()> {
        self.take(reader)?;
        self.finish(reader)
    }
}

/// Bay 0 has stored and is held before it can move the tail. Bay 1 moves it and stores behind. Then both
/// visits are taken.
pub(crate) fn timber_yard<R: Print>(stage: &mut Stage<'_, '_, R>) -> io::Result<()> {
    let mut held = Reader::new(0);
    let mut other = Reader::new(1);
    stage.put(&mut held, YARD_FIRST)?;
    stage.steps(&mut held, 5)?;
    stage.tell_of(&held, "is pulled out")?;
    stage.put(&mut other, YARD_SECOND)?;
    stage.steps(&mut other, 13)?;
    stage.collect(&other)?;
    stage.tell_of(&held, "is back")?;
    stage.steps(&mut held, 1)?;
    stage.collect(&held)?;
    stage.take_whole(&mut other)?;
    stage.take_whole(&mut held)
}

/// Bay 1 has found its slot free and is held before it can store. Bay 0 fills the ring and empties it. Bay
/// 1 is back and must start over, and a take shows that nothing went in behind the head. Then its visit
/// goes in after the others, and is taken.
pub(crate) fn bus_depot<R: Print>(stage: &mut Stage<'_, '_, R>) -> io::Result<()> {
    let mut other = Reader::new(0);
    let mut held = Reader::new(1);
    stage.put(&mut held, DEPOT_HELD)?;
    stage.steps(&mut held, 4)?;
    stage.tell_of(&held, "is pulled out")?;
    stage.put_whole(&mut other, DEPOT_FIRST)?;
    stage.put_whole(&mut other, DEPOT_SECOND)?;
    stage.take_whole(&mut other)?;
    stage.take_whole(&mut other)?;
    stage.tell_of(&held, "is back")?;
    stage.steps(&mut held, 1)?;
    stage.take_whole(&mut other)?;
    stage.steps(&mut held, 7)?;
    stage.collect(&held)?;
    stage.take_whole(&mut other)
}
