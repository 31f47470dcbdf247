//! Examples that were worked by hand, held against the definitions.

#![tactic(auto)]

ghost use Rattle.worked.specs.Examples.{Worked};

/// Every example of the table is what the definitions compute.
pub fn worked_examples_stand()
    ensures { Worked }
{}
