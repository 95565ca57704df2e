// The records that are written.
use crate::units::{Dots, Rest, Units};

#[derive(Clone, Copy)]
pub enum Mark {
    Tx,
    Im,
    Ln,
    Cl,
    No,
}

#[derive(Clone, Copy)]
pub struct Record {
    pub mark: Mark,
    pub column: Dots,
    pub row: Dots,
    pub byte: u8,
    pub font: u8,
    pub style: u16,
    pub country: u8,
    pub advance: Units,
    pub rest: Rest,
}

impl Record {
    // The bytes of a record.
    pub const SIZE: usize = 16;
}
