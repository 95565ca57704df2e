// The reader for C and Rust to link: its calls, on registers that the caller holds.
#![tactic(auto)]

ghost use Rattle.std.specs.Prelude.{◌≡◌};
ghost use Rattle.ierbulosc.specs.Calls.{settings_in, EscpStartPromise, EscpReadPromise, EscpSlotPromise, EscpWritePromise};

use printer::settings::StartSettings;
use registers::COUNT;
use slot::SlotColumns;

// How many numbers a start's settings are: the fields of `escp_settings`, in their order.
pub const SETTINGS: usize = 3;

// How many numbers a reading call counts: the bytes read, and the bytes written.
pub const COUNTS: usize = 2;

// How many numbers say which part of a list: where it begins, and its length.
pub const PART: usize = 2;

// The answer to the question what stands under a slot, where its list is not refused.
const ANSWERED: u8 = 0;

// The answer to letters that are written.
const WRITTEN: u8 = 0;

// The settings by their numbers: any but 0 switches automatic line feed on.
fn settings_in(given: &[u32; SETTINGS]) -> StartSettings
    ensures { result ≡ settings_in given.now }
{
    StartSettings {
        resolution: given[0],
        autofeed: given[1] != 0,
        width: given[2],
    }
}

// Starts a printer at 300 or 203 dots, on paper of 7,200 to 28,800 units; refuses any other resolution or width.
#[unsafe(no_mangle)]
pub extern "C" fn escp_start(state: &mut [u32; COUNT], settings: &[u32; SETTINGS]) -> u8
    ensures { EscpStartPromise settings.now result state.new }
{
    let answer = interpreter::start(state, settings_in(settings));
    answer.number()
}

// Reads input into records.
#[unsafe(no_mangle)]
pub extern "C" fn escp_read(
    state: &mut [u32; COUNT],
    input: &[u8],
    allowance: usize,
    out: &mut [u8],
    counts: &mut [usize; COUNTS],
) -> u8
    ensures { EscpReadPromise state.old input.now allowance out.old result
        state.new counts.new out.new }
{
    let report = interpreter::read(state, input, allowance, out);
    let answer = report.answer;
    *counts = [report.read, report.written];
    answer.number()
}

// Finds the record that stands under the columns from one to another.
#[unsafe(no_mangle)]
pub extern "C" fn escp_slot(records: &[u8], from: u16, to: u16, part: &mut [usize; PART]) -> u8
    ensures { EscpSlotPromise records.now from to result part.new }
{
    let (answer, told) = match slot::part_of(records, SlotColumns { from, to }) {
        Ok(found) => (ANSWERED, [found.start, found.length]),
        Err(refused) => (refused.number(), [0, 0]),
    };
    *part = told;
    answer
}

// Writes the letters of a list, five bytes each (the byte, across (2), down (2), low byte first), as ESC/P that the reader places there.
#[unsafe(no_mangle)]
pub extern "C" fn escp_write(letters: &[u8], out: &mut [u8], written: &mut usize) -> u8
    ensures { EscpWritePromise letters.now out.old result written.new out.new }
{
    match writer::write(letters, out) {
        Ok(count) => {
            *written = count;
            WRITTEN
        }
        Err(refusal) => {
            *written = 0;
            refusal.number()
        }
    }
}
