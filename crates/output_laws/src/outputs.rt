//! Laws of the outputs of lines. The functions do nothing: their contracts are the laws.
ghost use Rattle.output_laws.specs.Outputs.{OneOutput, InputOfCheckAlone, AnyWorkers, SolveNames, TreeIsChecked};

/// A line has one output for an input, and only `check` reads an input. The workers and the slots change nothing that is printed.
pub fn one_output_laws()
    ensures output { OneOutput }
    ensures input { InputOfCheckAlone }
    ensures workers { AnyWorkers }
{}

/// Where the goal is forced within the limit, `solve` names the fewest plies, and `check` says yes with as many to what `tree`
/// prints, if the text is no longer than an input may be.
pub fn printed_tree_laws()
    ensures solve { SolveNames }
    ensures check { TreeIsChecked }
{}
