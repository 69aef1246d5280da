// Laws on what the tables hold.
ghost use Rattle.guest_tables.specs.Reading.{ContentsAreRead, HoldingsAreRead};
ghost use Rattle.guest_tables.specs.Stepping.{StepsFit, StepsHold};

/// Law: where all rows are right, what is read of them is their content.
pub fn contents_are_read()
    ensures { ContentsAreRead }
{}

/// Law: a database holds one thing at most, which is read of its rows.
pub fn holdings_are_read()
    ensures { HoldingsAreRead }
{}

/// Law: the steps of a keeper leave rows in order.
pub fn steps_fit()
    ensures { StepsFit }
{}

/// Law: what each step makes of what is held.
pub fn steps_hold()
    ensures { StepsHold }
{}
