//! A law over the definition: the function does nothing, and its contract is the law.

ghost use Rattle.network_check.specs.Laws.{IsDetermined};

/// What elements leave is determined by the state and the moment.
pub fn determined()
    ensures { IsDetermined }
{}
