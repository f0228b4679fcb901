// Worked examples of the dock, computed on its definitions: plays of a few calls over the mark memory
// and the row memory, each with the answers that are due, and two histories with their places.
#![tactic(auto)]

ghost use Rattle.worked_examples.specs.Examples.{WorkedExamples};

/// The worked examples stand.
pub fn worked_examples_stand()
    ensures { WorkedExamples }
{}
