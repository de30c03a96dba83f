// Sheets to show the bench with.
#![tactic(auto)]

pub mod shuttle;
