//! A run: scans one after the other.

use std::marker::Model;

/// One scan of a run: its moment, in milliseconds, and the values that it gives the inputs, in order of declaration.
#[derive(Debug, Drop)]
pub struct RunScan {
    pub moment: u64,
    pub inputs: Vec<bool>,
}

impl Model for RunScan {
    ghost use Rattle.scan_cycle.specs.Runs.{OneScan};

    ghost Value = { OneScan };

    ghost view = { λ s. record { moment = s.moment; inputs = s.inputs.items } };
}
