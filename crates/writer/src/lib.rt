// Writes a card: letters with their places in units, as ESC/P that the reader places there.
#![tactic(auto)]

mod letters;
mod output;

ghost use Rattle.std.specs.Prelude.{◌≡◌, ◌+◌, ◌*◌, ◌≤◌, leb, length, OnErr};
ghost use Rattle.writer.specs.Card.{count_of, fault_in, card, room_for, report_of, output_of, number_of};
ghost use Rattle.writer.specs.Laid.{Laid};

use crate::letters::{check_letters, letter_from};
use crate::output::{put, put_letter};

// Why a card is not written, by the number that a caller in C is given.
#[derive(Clone, Copy, Debug, PartialEq, Eq)]
pub enum Refusal {
    Length = 5,
    Byte = 8,
    Place = 9,
    Room = 10,
}

impl Refusal {
    pub fn number(self) -> u8
        ensures { result ≡ number_of (Err self) }
    {
        self as u8
    }
}

// A letter, and its place in units.
#[derive(Clone, Copy)]
pub struct Letter {
    pub byte: u8,
    pub across: u16,
    pub down: u16,
}

impl Letter {
    // The bytes of a letter in the list.
    pub const SIZE: usize = 5;

    // The most bytes that one is written by.
    pub const MOST: usize = 33;
}

// Room for ESC @, and for the most that so many letters can take.
fn has_room(room: usize, count: usize) -> bool
    ensures { result ≡ leb (room_for count) room }
{
    2 <= room && count <= (room - 2) / Letter::MOST
}

// ESC @, and the letters one after the other. Returns the count of bytes written.
fn put_card(letters: &[u8], out: &mut [u8]) -> usize
    requires no_fault { fault_in letters.now (count_of letters.now) ≡ Ok tt }
    requires has_room { room_for (count_of letters.now) ≤ length out.old }
    ensures { Laid out.old (card letters.now (count_of letters.now)) result out.new }
{
    let mut at = put(out, [0x1B, b'@']);
    let mut before = 0;
    for bytes in letters.chunks_exact(Letter::SIZE) {
        let x = letter_from(bytes);
        at += put_letter(&mut out[at..], before, x);
        before = x.down;
    }
    at
}

// Writes the letters of a list, five bytes each (the byte, across (2), down (2), low byte first), and answers with the count of bytes written.
pub fn write(letters: &[u8], out: &mut [u8]) -> Result<usize, Refusal>
    ensures value { result ≡ report_of letters.now (length out.old) }
    ensures out_after { out.new ≡ output_of letters.now out.old }
    ensures refused { OnErr result (out.new ≡ out.old) }
{
    if letters.len() % Letter::SIZE != 0 {
        return Err(Refusal::Length);
    }
    check_letters(letters)?;
    if !has_room(out.len(), letters.len() / Letter::SIZE) {
        return Err(Refusal::Room);
    }
    Ok(put_card(letters, out))
}
