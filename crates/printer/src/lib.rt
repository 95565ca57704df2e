// The printer that the reader stands in for: its types, and its state at power-on.
#![tactic(auto)]

pub mod answers;
pub mod commands;
pub mod records;
pub mod settings;
pub mod starting;
pub mod state;
pub mod stops;
pub mod units;
