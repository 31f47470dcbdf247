//! Runs of any machine that takes calls (`specs/Trace`), and how what holds of each step holds of whole runs (`proofs/Trace`). No code.

#![tactic(auto)]
