//! Laws of runs.

ghost use Rattle.fx_c_mean_law.specs.Laws.{BeginsAtStart, GoesOnByRun, StandsByRun, EndsByRun, NeverDenied};

/// A runner that was made has reached the start of its program's run.
pub fn begins_at_start()
    ensures { BeginsAtStart }
{}

/// A step that goes on is the next one of the program's run.
pub fn goes_on_by_run()
    ensures { GoesOnByRun }
{}

/// A run that stands still has made what its program makes at that cost.
pub fn stands_by_run()
    ensures { StandsByRun }
{}

/// A run that ends has made what its program makes, and ends as it does, at the cost with the last step.
pub fn ends_by_run()
    ensures { EndsByRun }
{}

/// Where gates are plain calls no run ends denied.
pub fn never_denied()
    ensures { NeverDenied }
{}
