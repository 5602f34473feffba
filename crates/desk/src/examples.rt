// The worked examples, on the contract of a function that does nothing.
ghost use Rattle.desk.specs.Examples.{WorkedExamplesHold};

pub fn worked_examples_hold()
    ensures { WorkedExamplesHold }
{}
