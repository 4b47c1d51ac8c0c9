// Worked cases, an example of every cause, a third kind of work, and tests at the edges.
#![tactic(auto)]

ghost use Rattle.cases.specs.Causes.{EveryCause, EveryBodyCause};
ghost use Rattle.cases.specs.Worked.{WorkedCases};

pub mod clears;
#[cfg(test)]
mod edges;

// The worked cases hold of the definitions.
pub fn worked_cases_hold()
    ensures { WorkedCases }
{}

// No cause is one that nothing brings about.
pub fn every_cause_is_reached()
    ensures logs { EveryCause }
    ensures bodies { EveryBodyCause }
{}
