// A program: runs worked cases, and writes the records of each as lines of hex, a line for each answer but 0, and an empty line.
//
// A case is: dots an inch, the allowance and the output length of a reading call, the length of the input, the width of the paper (two bytes
// each, low byte first), automatic line feed (0 or 1), the input. It is read by calls until all is read or one reads nothing; what each of them read is read again
// by a call for each byte, and in two parts by calls to which the state is lent.
#![tactic(auto)]

ghost use Rattle.std.specs.Prelude.{◌≤◌, length, IfSome, IfOk};

use printer::answers::{Answer, Reading};
use printer::records::Record;
use printer::settings::StartSettings;
use printer::state::Printer;
use std::io::Read;
use thiserror::Error;

// The most bytes of input that a case has.
const MOST: usize = 512;

// The most bytes of output that a call has.
const ROOM: usize = 2 * MOST * Record::SIZE;

// The bytes before the input.
const HEAD: usize = 11;

// The allowance and the output length of each call.
#[derive(Clone, Copy)]
struct Limits {
    allowance: usize,
    room: usize,
}

// A case, but for its input, which is so many bytes.
#[derive(Clone, Copy)]
struct Case {
    settings: StartSettings,
    limits: Limits,
    size: usize,
}

// Why there is no next case.
#[derive(Clone, Copy, Debug, Error)]
enum NoCase {
    #[error("")]
    Ended,
    #[error("input too long\n")]
    TooLong,
    #[error("input cut short\n")]
    CutShort,
}

// What a call leaves: the state, and how many bytes it read.
#[derive(Drop)]
struct Progress {
    printer: Printer,
    read: usize,
}

// What reading a part leaves: the state, and how many bytes it wrote.
#[derive(Drop)]
struct Step {
    printer: Printer,
    written: usize,
}

// A reading call with these limits.
fn read(printer: Printer, input: &[u8], limits: Limits, out: &mut [u8]) -> Reading
    ensures { (result.report.read ≤ length input.now) × (result.report.written ≤ length out.old) }
{
    let room = limits.room.min(out.len());
    reader::read(printer, input, limits.allowance, &mut out[..room])
}

// Compares the records of a part with those expected, of which there may be more.
fn compared(printer: Printer, records: &[u8], expected: &[u8]) -> Option<Step>
    ensures { IfSome result (λ s. s.written ≤ length expected.now) }
{
    expected.starts_with(records).then_some(Step {
        printer,
        written: records.len(),
    })
}

// Reads a byte.
fn read_byte(printer: Printer, byte: &[u8], expected: &[u8]) -> Option<Step>
    ensures { IfSome result (λ s. s.written ≤ length expected.now) }
{
    let mut records = [0u8; 2 * Record::SIZE];
    let reading = listing::read(printer, byte, &mut records);
    let written = reading.report.written;
    compared(reading.printer, &records[..written], expected)
}

// Reads a part by a call to which the state is lent.
fn read_part(printer: Printer, part: &[u8], expected: &[u8]) -> Option<Step>
    ensures { IfSome result (λ s. s.written ≤ length expected.now) }
{
    let mut records = [0u8; ROOM];
    let reading = reader::read_by_lending(printer, part, part.len(), &mut records);
    let written = reading.report.written;
    compared(reading.printer, &records[..written], expected)
}

// Whether the input, read by a call for each byte, gives the expected records.
fn cut_agrees(printer: Printer, input: &[u8], expected: &[u8]) -> bool {
    let mut printer = printer;
    let mut left = expected;
    for byte in input.chunks(1) {
        let Some(step) = read_byte(printer, byte, left) else {
            return false;
        };
        printer = step.printer;
        left = &left[step.written..];
    }
    left.is_empty()
}

// Whether the input, read in two parts by calls to which the state is lent, gives the expected records.
fn lent_agrees(printer: Printer, input: &[u8], expected: &[u8]) -> bool {
    let (first, second) = input.split_at(input.len() / 2);
    let Some(step) = read_part(printer, first, expected) else {
        return false;
    };
    let left = &expected[step.written..];
    read_part(step.printer, second, left).is_some_and(|last| last.written == left.len())
}

fn say_answer(rt: &HostRuntime, answer: Answer) {
    let number = answer.number();
    if number != 0 {
        let _ = println!(rt; "answer {number}");
    }
}

// A reading call, whose records and answer are written, after a line if bytes read one by one, or on a state that is lent, give others.
fn show_call(rt: &HostRuntime, printer: Printer, input: &[u8], limits: Limits) -> Progress
    ensures { result.read ≤ length input.now }
{
    let mut records = [0u8; ROOM];
    let mut text = [0u8; 2 * MOST * hex_lines::LINE];
    let reading = read(printer, input, limits, &mut records);
    let report = reading.report;
    let input = &input[..report.read];
    let records = &records[..report.written];
    if !cut_agrees(printer, input, records) {
        let _ = rt.print("cut differs\n");
    }
    if !lent_agrees(printer, input, records) {
        let _ = rt.print("lent differs\n");
    }
    let size = hex_lines::lines(records, &mut text);
    let _ = rt.write_all(&text[..size]);
    say_answer(rt, report.answer);
    Progress {
        printer: reading.printer,
        read: report.read,
    }
}

// Calls until all is read, or one reads nothing.
fn show(rt: &HostRuntime, printer: Printer, input: &[u8], limits: Limits) {
    let mut printer = printer;
    let mut rest = input;
    loop {
        let progress = show_call(rt, printer, rest, limits);
        printer = progress.printer;
        rest = &rest[progress.read..];
        if progress.read == 0 || rest.is_empty() {
            return;
        }
    }
}

// A case: the start, and the input on the state that it gives, even where it is refused.
fn run(rt: &HostRuntime, case: Case, input: &[u8]) {
    let started = reader::start(case.settings);
    say_answer(rt, started.answer);
    show(rt, started.printer, input, case.limits);
    let _ = rt.print("\n");
}

// Reads the bytes before the input.
fn read_head(rt: &HostRuntime) -> Result<Case, NoCase>
    ensures { IfOk result (λ c. c.size ≤ 512) }
{
    let mut head = [0u8; HEAD];
    rt.stdin().read_exact(&mut head).map_err(|_| NoCase::Ended)?;
    let word = |at: usize| u16::from_le_bytes([head[at], head[at + 1]]);
    let case = Case {
        settings: StartSettings {
            resolution: u32::from(word(0)),
            autofeed: head[10] != 0,
            width: u32::from(word(8)),
        },
        limits: Limits {
            allowance: usize::from(word(2)),
            room: usize::from(word(4)),
        },
        size: usize::from(word(6)),
    };
    if case.size > MOST {
        return Err(NoCase::TooLong);
    }
    Ok(case)
}

// Runs the next case.
fn next_case(rt: &HostRuntime) -> Result<(), NoCase> {
    let case = read_head(rt)?;
    let mut input = [0u8; MOST];
    let input = &mut input[..case.size];
    rt.stdin().read_exact(input).map_err(|_| NoCase::CutShort)?;
    run(rt, case, input);
    Ok(())
}

// The cases are counted, since nothing says that the input ends.
fn main(rt: HostRuntime) {
    for _ in 0..u64::MAX {
        if let Err(none) = next_case(&rt) {
            let _ = print!(rt; "{none}");
            return;
        }
    }
}
