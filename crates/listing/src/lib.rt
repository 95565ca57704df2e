// ESC/P read from standard input, piece by piece, and a line for each record written to standard output: what the programs share.
#![tactic(auto)]

ghost use Rattle.std.specs.Prelude.{◌≡◌, ◌≤◌, ◌<◌, ◌+◌, ◌^◌, true, length, IfOk, MatchResult};
ghost use Rattle.printer.specs.Bounds.{accepted};
ghost use Rattle.printer.specs.Promises.{ReadPromise};
ghost use Rattle.listing.specs.Showing.{SomeShown, AllShown, Taken, FromInput, piece_size};

use printer::answers::Reading;
use printer::records::Record;
use printer::state::Printer;
use std::io::{self, Read};
use thiserror::Error;

// The most bytes of a piece of input.
const PIECE: usize = 32768;

// The most records that are made of it at a time.
const MOST: usize = 1024;

// What is left after some input: the state, and how many bytes were read.
#[derive(Clone, Copy)]
pub struct Progress {
    pub printer: Printer,
    pub read: usize,
}

// The stream that failed, and how. No contract of std says when one does, so none here does.
#[derive(Debug, Drop, Error)]
pub enum Failure {
    #[error("standard input: {0}")]
    Input(io::Error),
    #[error("standard output: {0}")]
    Output(io::Error),
}

// What is left where a stream failed.
#[derive(Drop)]
pub struct Stopped {
    pub progress: Progress,
    pub failure: Failure,
}

// A reading call with allowance for all its input.
pub fn read(printer: Printer, input: &[u8], out: &mut [u8]) -> Reading
    ensures read_promise { ReadPromise printer input.now (length input.now) out.old result out.new }
    ensures read_in_bounds { (result.report.read ≤ length input.now) × (result.report.written ≤ length out.old) }
    ensures accepted_kept { accepted printer ≡ true → accepted result.printer ≡ true }
{
    reader::read(printer, input, input.len(), out)
}

// Reads what standard input has next, and returns how many bytes there are.
fn get(rt: &HostRuntime, piece: &mut [u8]) -> io::Result<usize>
    ensures { IfOk result (λ n. n ≤ length piece.new) }
{
    rt.stdin().read(piece)
}

// All but the last return how many bytes they read, which `read` counts even where a stream failed.
impl Progress {
    // Reads as much as there is room for, and writes the lines of its records.
    fn show_some(&mut self, rt: &HostRuntime, input: &[u8]) -> io::Result<usize>
        requires { self.old.read + length input.now < 2 ^ 64 }
        ensures { SomeShown self.old input.now result self.new }
    {
        let mut records = [0u8; MOST * Record::SIZE];
        let mut text = [0u8; MOST * hex_lines::LINE];
        let reading = read(self.printer, input, &mut records);
        let report = reading.report;
        self.printer = reading.printer;
        self.read += report.read;
        let size = hex_lines::lines(&records[..report.written], &mut text);
        rt.write_all(&text[..size])?;
        Ok(report.read)
    }

    // Shows a piece of input to its end, or until writing fails.
    fn show(&mut self, rt: &HostRuntime, input: &[u8]) -> io::Result<usize>
        requires { self.old.read + length input.now < 2 ^ 64 }
        ensures { AllShown self.old input.now result self.new }
    {
        let mut at = 0;
        while at < input.len() {
            let read = self.show_some(rt, &input[at..])?;
            if read == 0 {
                return Ok(at);
            }
            at += read;
        }
        Ok(at)
    }

    // Reads a piece, of whatever size it comes in, and shows it. That the piece is what standard input has next is left to these lines.
    fn take_piece(&mut self, rt: &HostRuntime) -> Result<usize, Failure>
        requires { self.old.read + piece_size < 2 ^ 64 }
        ensures { Taken self.old result self.new }
    {
        let mut piece = [0u8; PIECE];
        let n = get(rt, &mut piece).map_err(Failure::Input)?;
        self.show(rt, &piece[..n]).map_err(Failure::Output)
    }

    // Takes pieces until none comes or a stream fails. That these are all of standard input is left to these lines, as no contract of std
    // says what a descriptor has; the bytes are counted, since nothing says that the input ends.
    fn take_all(&mut self, rt: &HostRuntime) -> Result<(), Failure>
        requires { self.old.read ≡ 0 }
        ensures { FromInput self.old.printer self.new.printer self.new.read }
    {
        while self.read < usize::MAX - PIECE {
            if self.take_piece(rt)? == 0 {
                break;
            }
        }
        Ok(())
    }
}

// Shows standard input; a stream that fails is also said on standard error. What is promised is the state, by the steps over the bytes that
// came.
pub fn run(rt: &HostRuntime, printer: Printer) -> Result<Progress, Stopped>
    ensures { MatchResult result (λ p. FromInput printer p.printer p.read)
        (λ s. FromInput printer s.progress.printer s.progress.read) }
{
    let mut progress = Progress { printer, read: 0 };
    match progress.take_all(rt) {
        Ok(()) => Ok(progress),
        Err(failure) => {
            let _ = eprintln!(rt; "escp: {failure}");
            Err(Stopped { progress, failure })
        }
    }
}
