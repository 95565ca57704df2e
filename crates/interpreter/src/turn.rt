// A turn of a reading call: letters and control bytes until something is waited for; image bytes on a line; or one byte of an escape or a list.
ghost use Rattle.std.specs.Prelude.{◌≡◌, true, ◌≤◌, ◌<◌, length, get_or, option_to_list};
ghost use Rattle.printer.specs.Tools.{pick};
ghost use Rattle.printer.specs.Records.{record_size, room_for_byte};
ghost use Rattle.printer.specs.declared.commands.Waiting.{Waiting};
ghost use Rattle.printer.specs.declared.state.Printer.{Printer};
ghost use Rattle.registers.specs.declared.pending.Pending.{Pending};
ghost use Rattle.registers.specs.Register.{upper_prints_at};
ghost use Rattle.registers.specs.Groups.{is_set};
ghost use Rattle.framing.specs.Letters.{prints_from};
ghost use Rattle.interpreter.specs.Output.{Written};
ghost use Rattle.interpreter.specs.Taking.{Ready, Turns, after_byte};

use crate::letters::{ColumnByte, letter, letter_record};
use crate::output::{write_any, write_record};
use crate::series::{Series, exact_step};
use crate::steps::{Stepping, argument_step, control_step, line_step, list_step, second_step};
use framing::{codes, prints, upper_letters};
use measures::rounding::Exact;
use measures::widths::{image_bytes, image_step};
use printer::commands::{Control, First, Waiting};
use printer::records::Record;
use printer::units::Units;
use registers::{ACROSS, ADVANCE, ADVANCE_DOTS, COUNT, RIGHT, UPPER_PRINTS};

// The room that a byte's records may take: it writes at most two.
pub(crate) const ROOM: usize = 2 * Record::SIZE;

// What is waited for after a turn, and the bytes that it read and wrote.
#[derive(Drop)]
pub(crate) struct Turned {
    pub waiting: Waiting,
    pub read: usize,
    pub written: usize,
}

// A turn of one byte, by its step, whose record is written.
fn after_byte(s: Stepping, out: &mut [u8]) -> Turned
    requires { record_size ≤ length out.old }
    ensures { (result ≡ after_byte s.waiting result.written) × Written out.old 0 (option_to_list s.wrote) result.written out.new }
{
    Turned {
        waiting: s.waiting,
        read: 1,
        written: write_any(out, 0, s.wrote),
    }
}

// Letters from here, the first of which is one: those that are placed on this line, or else that one.
fn take_letters(m: &mut [u32; COUNT], from: u8, input: &[u8], out: &mut [u8]) -> Turned
    requires ready { Ready Waiting.Nothing m.old input.now out.old }
    requires from_value { from ≡ pick (is_set (get_or m.old upper_prints_at 0)) 0x80 0xA0 }
    requires first_prints { prints_from from (get_or input.now 0 0) ≡ true }
    ensures { Turns Waiting.Nothing m.old input.now out.old result m.new out.new }
{
    let letters = Series {
        first: letter_record(m, 0),
        step: Units(m[ADVANCE]),
        by: Exact(m[ADVANCE_DOTS]),
        bytes: 1,
        part: 1,
    };
    let size = input.len();
    let most = letters.most(m, size, size, out.len());
    let placed = letters.place(m, from, &input[..most], out);
    if placed.count == 0 {
        return Turned {
            waiting: Waiting::Nothing,
            read: 1,
            written: letter(m, input[0], out),
        };
    }
    Turned {
        waiting: Waiting::Nothing,
        read: placed.count,
        written: Record::SIZE * placed.count,
    }
}

// Between commands: letters, or one byte that is no letter. (Most lines end with LF: its record is written where it is made, and not where those of
// all control bytes meet.)
fn take_here(m: &mut [u32; COUNT], input: &[u8], out: &mut [u8]) -> Turned
    requires { Ready Waiting.Nothing m.old input.now out.old }
    ensures { Turns Waiting.Nothing m.old input.now out.old result m.new out.new }
{
    let upper = m[UPPER_PRINTS] == 1;
    let from = upper_letters(upper);
    let b = input[0];
    if prints(from, b) {
        return take_letters(m, from, input, out);
    }
    let f = framing::first(upper, b);
    if let First::Control(Control::LineFeed) = f {
        let line = line_step(m);
        return Turned {
            waiting: Waiting::Nothing,
            read: 1,
            written: write_record(out, 0, line),
        };
    }
    after_byte(control_step(m, f, b), out)
}

// Whether letters and control bytes may follow: nothing is waited for, and there is input and room for a byte.
fn goes_on(w: Waiting, input: usize, room: usize) -> bool
    ensures { result ≡ true → (w ≡ Waiting.Nothing) × ((0 < input) × (room_for_byte ≤ room)) }
{
    match w {
        Waiting::Nothing => (0 < input) & (ROOM <= room),
        _ => false,
    }
}

// Between commands: letters and control bytes, until something is waited for, or the input or the room ends.
fn take_text(m: &mut [u32; COUNT], input: &[u8], out: &mut [u8]) -> Turned
    requires { Ready Waiting.Nothing m.old input.now out.old }
    ensures { Turns Waiting.Nothing m.old input.now out.old result m.new out.new }
{
    let mut at: usize = 0;
    let mut written: usize = 0;
    loop {
        let t = take_here(m, &input[at..], &mut out[written..]);
        at += t.read;
        written += t.written;
        if !goes_on(t.waiting, input.len() - at, out.len() - written) {
            return Turned {
                waiting: t.waiting,
                read: at,
                written,
            };
        }
    }
}

// In image data, the first byte alone: where no column is placed from here, so that it is kept out of the loop over them.
#[inline(never)]
fn take_image(
    byte: ColumnByte,
    columns: u16,
    m: &mut [u32; COUNT],
    input: &[u8],
    out: &mut [u8],
) -> Turned
    requires { Ready (Waiting.ImageData byte.mode byte.part columns) m.old input.now out.old }
    ensures { Turns (Waiting.ImageData byte.mode byte.part columns) m.old input.now out.old result m.new out.new }
{
    let wrote = byte.print(m, input[0]);
    Turned {
        waiting: byte.after(columns),
        read: 1,
        written: write_record(out, 0, wrote),
    }
}

// In image data, from any byte of a column on: the bytes that are placed from here, or else one.
fn take_images(
    byte: ColumnByte,
    columns: u16,
    m: &mut [u32; COUNT],
    input: &[u8],
    out: &mut [u8],
) -> Turned
    requires { Ready (Waiting.ImageData byte.mode byte.part columns) m.old input.now out.old }
    ensures { Turns (Waiting.ImageData byte.mode byte.part columns) m.old input.now out.old result m.new out.new }
{
    // Where a column does not fit, its bytes are passed over one by one, with no series made of them.
    if byte.end(Units(m[ACROSS]), Units(m[RIGHT])).is_none() {
        return take_image(byte, columns, m, input, out);
    }
    let step = image_step(byte.mode);
    let image = Series {
        first: ColumnByte { part: 1, ..byte }.image_record(m, 0),
        step,
        by: exact_step(m, step),
        bytes: image_bytes(byte.mode),
        part: byte.part,
    };
    let most = image.most(m, columns as usize, input.len(), out.len());
    let placed = image.place_columns(m, &input[..most], out);
    if placed.count == 0 {
        return take_image(byte, columns, m, input, out);
    }
    let rest = columns - placed.done as u16;
    let next = ColumnByte {
        part: placed.part,
        ..byte
    };
    Turned {
        waiting: next.waiting(rest),
        read: placed.count,
        written: Record::SIZE * placed.count,
    }
}

// By what is waited for: letters and control bytes, image bytes, or one byte of an escape or a list.
pub(crate) fn turn(waiting: Waiting, m: &mut [u32; COUNT], input: &[u8], out: &mut [u8]) -> Turned
    requires { Ready waiting m.old input.now out.old }
    ensures { Turns waiting m.old input.now out.old result m.new out.new }
{
    let b = input[0];
    match waiting {
        Waiting::Nothing => take_text(m, input, out),
        Waiting::SecondByte => after_byte(second_step(m, codes::second_of(b), b), out),
        Waiting::Arguments(w) => after_byte(argument_step(m, w, b), out),
        Waiting::StopList(t, before) => after_byte(list_step(m, t, before, b), out),
        Waiting::ImageData(mode, part, columns) => {
            let byte = ColumnByte { mode, part };
            take_images(byte, columns, m, input, out)
        }
    }
}
