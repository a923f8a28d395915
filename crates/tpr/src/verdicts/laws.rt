//! The law on which the result rests. It is the contract of a function that does nothing.
ghost use Rattle.tpr.specs.Laws.{NoResultIsMissed};

/// The machine of a test case reaches each verdict that a run of it reports.
pub fn none_is_missed()
    ensures { NoResultIsMissed }
{}
