//! Laws over whole runs of a burst, as definitions over its symbols' vectors have them: what a run is (`specs/Runs`), and what holds of every one (`specs/Laws`).

#![tactic(auto)]

ghost use Rattle.runs.specs.Laws.{Laws};

/// The laws hold of every run.
pub fn laws_stand()
    ensures { Laws }
{}
