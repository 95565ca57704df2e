// Whether registers are those of a printer within its bounds.
#![tactic(auto)]

pub mod bounds;
mod lists;
mod same;
