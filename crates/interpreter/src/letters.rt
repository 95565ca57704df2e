// The bytes that print: letters and image bytes.
ghost use Rattle.std.specs.Prelude.{◌≡◌, [], ◌∷◌, ◌+◌, ◌≤◌, ◌<◌, leb, eqb, length};
ghost use Rattle.printer.specs.Tools.{either};
ghost use Rattle.printer.specs.Records.{record_size, room_for_byte, letter_record, image_record};
ghost use Rattle.printer.specs.Settings.{advance_of};
ghost use Rattle.printer.specs.Widths.{image_bytes, image_step};
ghost use Rattle.printer.specs.Performing.{column_move, column_part};
ghost use Rattle.printer.specs.Framing.{after_image_byte};
ghost use Rattle.printer.specs.Units.{units};
ghost use Rattle.interpreter.specs.Reaching.{column_end};
ghost use Rattle.printer.specs.Deciding.{attempt, letter_events};
ghost use Rattle.printer.specs.declared.commands.Command.{Command};
ghost use Rattle.printer.specs.declared.state.Printer.{Printer};
ghost use Rattle.registers.specs.declared.pending.Pending.{Pending};
ghost use Rattle.registers.specs.Held.{Held};
ghost use Rattle.interpreter.specs.Doing.{Does, Prints};
ghost use Rattle.interpreter.specs.Series.{columns_wait};
ghost use Rattle.interpreter.specs.Leaving.{record_here, print_or_pass, Writes};

use crate::lines::line_feed;
use crate::moves::move_to;
use crate::output::{Reason, passed_record, write_record};
use crate::positions::{reached, rightward};
use framing::image_wait;
use measures::rounding;
use measures::widths::{image_bytes, image_step};
use printer::commands::{ImageMode, Waiting};
use printer::records::{Mark, Record};
use printer::settings::Margins;
use printer::units::Units;
use registers::groups::{margins_in, setup_in};
use registers::{ACROSS, ADVANCE, COUNT, COUNTRY, DOWN, FONT, RIGHT, STYLE};

// A record at the place, of a byte that prints: style and country are 0 here.
fn record_here(m: &[u32; COUNT], mark: Mark, b: u8, font: u8, advance: Units) -> Record
    ensures { (p : Printer) (v : Pending) → Held p v m.now → result ≡ record_here mark p.settings p.place b font advance.0 }
{
    let resolution = setup_in(m).resolution;
    let across = rounding::across(resolution, Units(m[ACROSS]));
    Record {
        mark,
        column: across.dot,
        row: rounding::row(resolution, Units(m[DOWN])),
        byte: b,
        font,
        style: 0,
        country: 0,
        advance,
        rest: across.rest,
    }
}

// TX: a letter at the place.
pub(crate) fn letter_record(m: &[u32; COUNT], b: u8) -> Record
    ensures { (p : Printer) (v : Pending) → Held p v m.now → result ≡ letter_record p.settings p.place b (advance_of p.settings) }
{
    let font = (m[FONT] % 256) as u8;
    Record {
        style: (m[STYLE] % 65536) as u16,
        country: (m[COUNTRY] % 256) as u8,
        ..record_here(m, Mark::Tx, b, font, Units(m[ADVANCE]))
    }
}

// The place moves to a position, with a record; passed over if that is outside.
fn print_or_pass(m: &mut [u32; COUNT], to: Option<Units>, wrote: Record, b: u8) -> Record
    ensures { Writes (λ (p : Printer). print_or_pass p to wrote b) m.old m.new (result ∷ []) }
{
    let Some(across) = to else {
        return passed_record(b, Reason::DoesNotFit);
    };
    move_to(m, across);
    wrote
}

// A byte of an image's columns: the mode, and which byte of its column it is. (How many columns are waited for stands beside it: a struct of
// two numbers is passed in the processor's registers, one of three is not.)
#[derive(Clone, Copy)]
pub(crate) struct ColumnByte {
    pub mode: ImageMode,
    pub part: u8,
}

impl ColumnByte {
    // The number that its record bears.
    fn number(self) -> u8
        ensures { result ≡ column_part self.mode self.part }
    {
        if image_bytes(self.mode) == 1 {
            0
        } else {
            self.part
        }
    }

    // IM: it is at the place.
    pub(crate) fn image_record(self, m: &[u32; COUNT], b: u8) -> Record
        ensures { (p : Printer) (v : Pending) → Held p v m.now → result ≡ image_record p.settings p.place b (column_part self.mode self.part) (image_step self.mode) }
    {
        record_here(m, Mark::Im, b, self.number(), image_step(self.mode))
    }

    // How far it moves the place: the last of a column by the step.
    fn moves(self) -> Units
        ensures { (result ≡ units (column_move self.mode self.part)) × (result.0 ≤ image_step self.mode) }
    {
        if self.part == image_bytes(self.mode) {
            image_step(self.mode)
        } else {
            Units(0)
        }
    }

    // Where the place is after it, if the column fits.
    pub(crate) fn end(self, across: Units, right: Units) -> Option<Units>
        ensures { result ≡ column_end self.mode self.part across.0 right.0 }
    {
        let end = across.0 as u64 + image_step(self.mode).0 as u64;
        reached(
            end <= right.0 as u64,
            across.0 as u64 + self.moves().0 as u64,
        )
    }

    // It is printed, or passed over.
    pub(crate) fn print(self, m: &mut [u32; COUNT], b: u8) -> Record
        ensures { Does (λ (p : Printer). attempt p (Command.ImageByte self.mode self.part b) 4 ∷ []) m.old m.new (result ∷ []) }
    {
        let to = self.end(Units(m[ACROSS]), Units(m[RIGHT]));
        let wrote = self.image_record(m, b);
        print_or_pass(m, to, wrote, b)
    }

    // What is waited for after it, of so many columns with its own.
    pub(crate) fn after(self, columns: u16) -> Waiting
        requires { (0 < columns) × (self.part ≤ image_bytes self.mode) }
        ensures { result ≡ after_image_byte self.mode self.part columns }
    {
        if self.part == image_bytes(self.mode) {
            return image_wait(self.mode, columns - 1);
        }
        Waiting::ImageData(self.mode, self.part + 1, columns)
    }

    // What is waited for before it, of so many columns; of none, nothing.
    pub(crate) fn waiting(self, columns: u16) -> Waiting
        ensures { result ≡ columns_wait self.mode self.part columns }
    {
        if columns == 0 {
            return Waiting::Nothing;
        }
        Waiting::ImageData(self.mode, self.part, columns)
    }
}

// A letter, on this line.
fn letter_here(m: &mut [u32; COUNT], b: u8) -> Record
    ensures { Does (λ (p : Printer). attempt p (Command.Letter b) 4 ∷ []) m.old m.new (result ∷ []) }
{
    let to = rightward(Units(m[ACROSS]), Units(m[ADVANCE]), Units(m[RIGHT]));
    let wrote = letter_record(m, b);
    print_or_pass(m, to, wrote, b)
}

// The same, with its record written from a place on. (At the end of each line there is one, so that it is kept out of the loop over letters.)
#[inline(never)]
fn write_letter(m: &mut [u32; COUNT], b: u8, out: &mut [u8], at: usize) -> usize
    requires { at + record_size ≤ length out.old }
    ensures { Prints (λ (p : Printer). attempt p (Command.Letter b) 4 ∷ []) m.old m.new out.old at result out.new }
{
    let wrote = letter_here(m, b);
    write_record(out, at, wrote)
}

// Whether a letter stays on this line: it ends within the right margin, or it is at the left one, where the next line has no more room.
fn stays(m: Margins, across: Units, advance: Units) -> bool
    ensures { result ≡ either (leb (across.0 + advance.0) m.right.0) (eqb across.0 m.left.0) }
{
    let end = across.0 as u64 + advance.0 as u64;
    (end <= m.right.0 as u64) | (across.0 == m.left.0)
}

// A letter: on this line, or after an automatic line, whose LN is one record. It alone may have two, and so is given the output.
pub(crate) fn letter(m: &mut [u32; COUNT], b: u8, out: &mut [u8]) -> usize
    requires { room_for_byte ≤ length out.old }
    ensures { Prints (λ (p : Printer). letter_events p b) m.old m.new out.old 0 result out.new }
{
    if stays(margins_in(m), Units(m[ACROSS]), Units(m[ADVANCE])) {
        return write_letter(m, b, out, 0);
    }
    let line = line_feed(m);
    let at = write_record(out, 0, line);
    write_letter(m, b, out, at)
}
