// Who compares what a dock answers with what is due.
use dock_rules::Refusal;
use std::fmt;
use std::fmt::Debug;
use std::process::Abort;

/// Where a test stands, for the message of an answer that is another: the row of its table, the
/// elements, the memory, and the number of the call.
// Each crate of tests has a judge of its own: a library could hold none, since no code outside tests may end the process.
#[derive(Drop)]
pub(crate) struct Judge<'a, R: Abort> {
    pub(crate) rt: &'a R,
    pub(crate) row: &'static str,
    pub(crate) number: usize,
    pub(crate) elements: &'static str,
    pub(crate) memory: &'static str,
    pub(crate) call: usize,
}

impl<R: Abort> fmt::Display for Judge<'_, R> {
    fn fmt<W: fmt::Write>(&self, f: &mut fmt::Formatter<W>) -> fmt::Result {
        let Judge {
            row,
            number,
            elements,
            memory,
            call,
            ..
        } = self;
        write!(
            f,
            "{row} {number}, on {elements}, over the {memory} memory, call {call}"
        )
    }
}

impl<'a, R: Abort> Judge<'a, R> {
    /// For the row of a table, over the memory of that name.
    pub(crate) fn new(
        rt: &'a R,
        row: &'static str,
        number: usize,
        elements: &'static str,
        memory: &'static str,
    ) -> Judge<'a, R> {
        Judge {
            rt,
            row,
            number,
            elements,
            memory,
            call: 0,
        }
    }

    /// The test ends here unless the two are equal.
    pub(crate) fn same<T: Copy + PartialEq + Debug>(&self, got: T, due: T) {
        assert_eq!(self.rt; got, due, "{self}");
    }

    /// What was answered. The test ends here if the call was turned down.
    pub(crate) fn granted<T: Copy + Debug>(&self, got: Result<T, Refusal>) -> T {
        match got {
            Ok(answer) => answer,
            Err(refusal) => panic!(self.rt; "{self}: turned down as {refusal:?}"),
        }
    }
}
