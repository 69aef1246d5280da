ghost use Rattle.five_files.specs.NeverChanges.{NeverChanges};

/// Once INIT is agreed on, each request is answered the same, whatever came before it.
pub fn never_changes()
    ensures { NeverChanges }
{}
