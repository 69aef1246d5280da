// The laws of the steps on pairs.
ghost use Rattle.guest_tables.specs.PairSteps.{StepsAreOfPairs, StepsFit};

/// What the statements make of the rows is what the changes of an ANSWER make of the pairs.
pub fn steps_are_of_pairs()
    ensures { StepsAreOfPairs }
{}

/// Rows in order stay so, if the pairs that are put are within the limits.
pub fn pair_steps_fit()
    ensures { StepsFit }
{}
