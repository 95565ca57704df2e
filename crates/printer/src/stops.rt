// Tab stops: those in force, and those being gathered.
use crate::units::Units;

// A list of stops: columns, or distances from the top in units. The first `count` are held.
#[derive(Clone, Copy)]
pub struct TabStops {
    pub stops: [u32; TabStops::ROOM],
    pub count: u32,
}

// The vertical channels. Channel m has the sixteen places from 16 m on; its count is 0 if it was never set, else one more than the stops that it
// holds. `chosen` is the one that VT uses.
#[derive(Clone, Copy)]
pub struct Channels {
    pub stops: [u32; Channels::ROOM],
    pub counts: [u32; Channels::NUMBER],
    pub chosen: u32,
}

#[derive(Clone, Copy)]
pub struct Stops {
    pub columns: TabStops,
    pub channels: Channels,
    pub gathered: TabStops,
}

// A stop that a search finds: its number, counted from 1, and where it is.
#[derive(Clone, Copy)]
pub struct Stop {
    pub number: u32,
    pub place: Units,
}

impl TabStops {
    // How many stops an array has room for.
    pub const ROOM: usize = 32;
}

impl Channels {
    // How many there are, and how many stops they have room for.
    pub const NUMBER: usize = 8;

    pub const ROOM: usize = 128;
}
