//! The worked cases that are proved: what the definitions give for the example tag and for the published checksums.
#![tactic(auto)]

ghost use Rattle.worked_cases.specs.Cases.{WorkedCases};

// Every case of the list holds.
pub fn worked_cases_hold()
    ensures { WorkedCases }
{}
