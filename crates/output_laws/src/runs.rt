//! A law of runs. The function does nothing: its contract is the law.
ghost use Rattle.output_laws.specs.Runs.{OneRun};

/// Two runs of a line on one input end with one status and write one text, but for want of memory and for reads and writes
/// that fail.
pub fn one_run_law()
    ensures { OneRun }
{}
