// What is computed of the printer's types alone: dots, widths, the edge, stops, countries, the bytes of records.
#![tactic(auto)]

pub mod countries;
pub mod encoding;
pub mod lengths;
pub mod paper;
pub mod rounding;
pub mod stops;
pub mod styles;
pub mod widths;
