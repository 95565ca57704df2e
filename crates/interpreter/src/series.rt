// A series of bytes on a line: letters, and the bytes of image columns. The bytes of a column stand at one place, and the last moves it by a step;
// a letter is a column of one byte.
ghost use Rattle.std.specs.Prelude.{◌≡◌, ◌+◌, ◌*◌, ◌-◌, ◌≤◌, length, get_or};
ghost use Rattle.printer.specs.Records.{room_for_byte};
ghost use Rattle.printer.specs.Units.{per_inch_across};
ghost use Rattle.measures.specs.Exact.{packed, dot_of, rest_of};
ghost use Rattle.registers.specs.Register.{across_at, right_at, dots_across_at};
ghost use Rattle.registers.specs.Groups.{resolution_of};
ghost use Rattle.interpreter.specs.Series.{Formed, OnPaper, Placeable, Placing, like_at, of_part, spot_after};
ghost use Rattle.interpreter.specs.Taking.{Fits};

use crate::output::write_record;
use framing::prints;
use measures::rounding::Exact;
use printer::records::Record;
use printer::units::Units;
use registers::groups::resolution_of;
use registers::{ACROSS, COUNT, DOTS_ACROSS, RIGHT};

// The columns of a series: the record of the first one's first byte, the step from each to the next, in units and exact, how many bytes each has,
// and which of them comes next.
#[derive(Clone, Copy)]
pub(crate) struct Series {
    pub first: Record,
    pub step: Units,
    pub by: Exact,
    pub bytes: u8,
    pub part: u8,
}

// Where a byte of a series stands: its exact place, which byte of its column it is, and how many columns are done before it.
#[derive(Clone, Copy)]
pub(crate) struct Spot {
    exact: Exact,
    part: u8,
    done: usize,
}

// How many bytes were placed, which byte of a column comes next, and how many columns are done.
#[derive(Drop)]
pub(crate) struct Placed {
    pub count: usize,
    pub part: u8,
    pub done: usize,
}

// The exact place of the position across.
fn exact_place(m: &[u32; COUNT]) -> Exact
    ensures { result ≡ record { 0 = packed (get_or m.now across_at 0 * per_inch_across (resolution_of (get_or m.now dots_across_at 0)) + 1800) } }
{
    Exact::place(resolution_of(m[DOTS_ACROSS]), Units(m[ACROSS]))
}

// A step across, exactly.
pub(crate) fn exact_step(m: &[u32; COUNT], step: Units) -> Exact
    ensures { result ≡ record { 0 = packed (step.0 * per_inch_across (resolution_of (get_or m.now dots_across_at 0))) } }
{
    Exact::step(resolution_of(m[DOTS_ACROSS]), step)
}

impl Series {
    // The record of a byte at a spot, like the first: fonts go on by one.
    fn record_at(self, spot: Spot, b: u8) -> Record
        requires { (1 ≤ spot.part) × (self.first.font + (spot.part - 1) ≤ 255) }
        ensures { result ≡ like_at (of_part self.first spot.part) (dot_of spot.exact.0) (rest_of spot.exact.0) b }
    {
        Record {
            column: spot.exact.dot(),
            byte: b,
            font: self.first.font + (spot.part - 1),
            rest: spot.exact.rest(),
            ..self.first
        }
    }

    // The spot after a byte: the last of a column ends it.
    fn after(self, spot: Spot) -> Spot
        requires { (spot.part ≤ self.bytes) × (spot.done ≤ 28800) }
        ensures { result ≡ spot_after spot self.by.0 self.bytes }
    {
        if spot.part == self.bytes {
            return Spot {
                exact: spot.exact.further(self.by),
                part: 1,
                done: spot.done + 1,
            };
        }
        Spot {
            part: spot.part + 1,
            ..spot
        }
    }

    // How many bytes may follow each other: they have input and room, and are of columns that are waited for and end within the right margin.
    pub(crate) fn most(self, m: &[u32; COUNT], columns: usize, input: usize, room: usize) -> usize
        requires formed { Formed m.now self }
        requires paper { OnPaper m.now }
        requires some_room { room_for_byte ≤ room }
        ensures { Fits result self.bytes self.part columns input room (get_or m.now across_at 0) self.step.0 (get_or m.now right_at 0) }
    {
        let fitting = (m[RIGHT] - m[ACROSS]) / self.step.0;
        let whole = columns.min(fitting as usize);
        if whole == 0 {
            return 0;
        }
        let records = room / Record::SIZE - 1;
        let bytes = whole * self.bytes as usize + 1 - self.part as usize;
        bytes.min(records).min(input)
    }

    // Places the input, up to a byte that does not print: a record for each byte, each column a step further. Moves the position across.
    // (The count is computed from the place in the output: kept beside it, it costs a letter two instructions.)
    #[inline(always)]
    pub(crate) fn place(
        self,
        m: &mut [u32; COUNT],
        from: u8,
        input: &[u8],
        out: &mut [u8],
    ) -> Placed
        requires { Placeable m.old self (length input.now) (length out.old) }
        ensures { Placing m.old self from input.now out.old result m.new out.new }
    {
        let mut spot = Spot {
            exact: exact_place(&*m),
            part: self.part,
            done: 0,
        };
        let mut at: usize = 0;
        for &b in input {
            if !prints(from, b) {
                break;
            }
            write_record(&mut *out, at, self.record_at(spot, b));
            spot = self.after(spot);
            at += Record::SIZE;
        }
        m[ACROSS] += spot.done as u32 * self.step.0;
        Placed {
            count: at / Record::SIZE,
            part: spot.part,
            done: spot.done,
        }
    }

    // The same in columns of any number of bytes. No image has others than of one byte and of three, so that this is not inlined.
    #[cold]
    #[inline(never)]
    fn place_any(self, m: &mut [u32; COUNT], input: &[u8], out: &mut [u8]) -> Placed
        requires { Placeable m.old self (length input.now) (length out.old) }
        ensures { Placing m.old self 0 input.now out.old result m.new out.new }
    {
        self.place(m, 0, input, out)
    }

    // The same in image columns, where every byte prints. Columns of one byte are told apart, so that the loop counts no bytes of a column for them,
    // and those of three, so that it knows their number.
    pub(crate) fn place_columns(self, m: &mut [u32; COUNT], input: &[u8], out: &mut [u8]) -> Placed
        requires { Placeable m.old self (length input.now) (length out.old) }
        ensures { Placing m.old self 0 input.now out.old result m.new out.new }
    {
        match self.bytes {
            1 => Series {
                bytes: 1,
                part: 1,
                ..self
            }
            .place(m, 0, input, out),
            3 => Series { bytes: 3, ..self }.place(m, 0, input, out),
            _ => self.place_any(m, input, out),
        }
    }
}
