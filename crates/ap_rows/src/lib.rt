//! Worked rows: the definitions computed on small programs.
#![tactic(auto)]
