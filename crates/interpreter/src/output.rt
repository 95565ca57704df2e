// Records, and their bytes written into the output.
ghost use Rattle.std.specs.Prelude.{◌≡◌, [], ◌∷◌, ◌+◌, ◌≤◌, length, option_to_list};
ghost use Rattle.printer.specs.Records.{record_size, plain_record, passed_record, feed_record, clear_record};
ghost use Rattle.printer.specs.declared.state.Printer.{Printer};
ghost use Rattle.registers.specs.declared.pending.Pending.{Pending};
ghost use Rattle.registers.specs.Held.{Held};
ghost use Rattle.interpreter.specs.Output.{Written, reason_number};

use measures::encoding::encoded;
use measures::rounding;
use printer::records::{Mark, Record};
use printer::units::{Dots, Rest, Units};
use registers::COUNT;
use registers::groups::setup_in;

// Writes a record's bytes over as many. (`copy_from_slice` is compiled with a test whether the two lie apart.)
fn put(part: &mut [u8], bytes: [u8; Record::SIZE])
    requires { length part.old ≡ record_size }
    ensures { part.new ≡ bytes }
{
    if let Some(whole) = part.as_mut_array() {
        *whole = bytes;
    }
}

// Writes a record from `at`, and gives the place after it.
pub(crate) fn write_record(out: &mut [u8], at: usize, r: Record) -> usize
    requires { at + record_size ≤ length out.old }
    ensures { Written out.old at (r ∷ []) result out.new }
{
    let end = at + Record::SIZE;
    let encoded = encoded(r);
    put(&mut out[at..end], encoded);
    end
}

// Writes a record from `at`, if there is one, and gives the place after it.
pub(crate) fn write_any(out: &mut [u8], at: usize, r: Option<Record>) -> usize
    requires { at + record_size ≤ length out.old }
    ensures { Written out.old at (option_to_list r) result out.new }
{
    match r {
        Some(r) => write_record(out, at, r),
        None => at,
    }
}

// A record with no place across, font, country or advance: LN, CL, NO.
pub(crate) fn plain_record(mark: Mark, row: Dots, byte: u8, style: u16) -> Record
    ensures { result ≡ plain_record mark row byte style }
{
    Record {
        mark,
        column: Dots(0),
        row,
        byte,
        font: 0,
        style,
        country: 0,
        advance: Units(0),
        rest: Rest(0),
    }
}

// Why a byte is passed over, by the number that its record bears.
#[derive(Clone, Copy)]
pub(crate) enum Reason {
    Unlisted = 1,
    NotAllowed = 2,
    PastLimits = 3,
    DoesNotFit = 4,
    NoStop = 5,
}

// NO: a byte passed over, and the reason.
pub(crate) fn passed_record(b: u8, reason: Reason) -> Record
    ensures { result ≡ passed_record b (reason_number reason) }
{
    plain_record(Mark::No, Dots(0), b, reason as u16)
}

// CL.
pub(crate) fn clear_record() -> Record
    ensures { result ≡ clear_record }
{
    plain_record(Mark::Cl, Dots(0), 0, 0)
}

// LN: a line fed to a place down, and the pages turned.
pub(crate) fn feed_record(m: &[u32; COUNT], down: Units, pages: u8) -> Record
    ensures { (p : Printer) (v : Pending) → Held p v m.now
        → result ≡ feed_record p.settings.setup.resolution down.0 pages }
{
    let setup = setup_in(m);
    let resolution = setup.resolution;
    plain_record(Mark::Ln, rounding::row(resolution, down), pages, 0)
}
