// A program: records as lines of hex on standard input; on standard output, at the end, the line of the record that stands under a slot.
#![tactic(auto)]

ghost use Rattle.std.specs.Prelude.{◌≡◌, ◌≤◌, ◌<◌, ◌+◌, ◌^◌, length, IfOk, Ok};
ghost use Rattle.standing.specs.Text.{lines_of, FromInput};
ghost use Rattle.under.specs.Taking.{Taken, left, piece_size};
ghost use Rattle.under.specs.Told.{Told};

use command_line::columns::{Columns, Words};
use command_line::{BadUsage, asked};
use hex_lines::{DIGITS, LINE};
use slot::SlotColumns;
use standing::text::{BadLine, Text};
use std::io::{self, Read};
use thiserror::Error;

const HELP: &str = "\
under FROM TO < RECORDS
Reads records as lines of hex digits, as escp writes them, and writes the line of the
letter that stands now in a column from FROM to TO, or nothing.
  FROM, TO  dot columns, 0 to 65535; both are included
  --help    this text
";

const USAGE: &str = "under: takes two columns, numbers from 0 to 65535, or --help\n";

// The most bytes of a piece of input.
const PIECE: usize = 32768;

// Why there is no answer.
#[derive(Debug, Drop, Error)]
enum Failure {
    #[error("standard input: {0}")]
    Input(io::Error),
    #[error("line {} is not a record of {digits} hex digits", .0.text.number, digits = DIGITS)]
    Line(BadLine),
    #[error("standard output: {0}")]
    Output(io::Error),
}

// Reads what standard input has next.
fn get(rt: &HostRuntime, piece: &mut [u8]) -> io::Result<usize>
    ensures { IfOk result (λ n. n ≤ length piece.new) }
{
    rt.stdin().read(piece)
}

// What is left after some input: the text read, and how many bytes there were.
#[derive(Clone, Copy)]
struct Progress {
    text: Text,
    read: usize,
}

// Both count all of a piece with a line that is no record's too; what had been read up to that line is the failure's.
impl Progress {
    // Reads a piece, of whatever size it comes in, and returns how many bytes there are. That the piece is what standard input has next is left
    // to these lines.
    fn take_piece(&mut self, rt: &HostRuntime, columns: SlotColumns) -> Result<usize, Failure>
        requires { self.old.read + piece_size < 2 ^ 64 }
        ensures { Taken columns.from columns.to self.old result self.new }
    {
        let mut piece = [0u8; PIECE];
        let n = get(rt, &mut piece).map_err(Failure::Input)?;
        self.read += n;
        self.text = self
            .text
            .piece(&piece[..n], columns)
            .map_err(Failure::Line)?;
        Ok(n)
    }

    // Takes pieces until none comes, one has a line that is no record's, or reading fails. That it goes on until then is left to these lines; the
    // bytes are counted, since nothing says that the input ends.
    fn take_all(&mut self, rt: &HostRuntime, columns: SlotColumns) -> Result<(), Failure>
        requires { self.old.read ≡ 0 }
        ensures { FromInput columns.from columns.to (Ok (lines_of self.old.text)) (left self.new.text result) self.new.read }
    {
        while self.read < usize::MAX - PIECE {
            if self.take_piece(rt, columns)? == 0 {
                break;
            }
        }
        Ok(())
    }
}

// Takes all of a text, from before any byte.
fn read_all(rt: &HostRuntime, columns: SlotColumns) -> Result<Text, Failure>
    ensures { Told columns.from columns.to result }
{
    let mut progress = Progress {
        text: Text::new(),
        read: 0,
    };
    progress.take_all(rt, columns)?;
    Ok(progress.text)
}

// Writes the line of the record that stands there at the text's end, if one does.
fn answer(rt: &HostRuntime, columns: SlotColumns) -> Result<(), Failure> {
    let text = read_all(rt, columns)?;
    let end = text.end(columns).map_err(Failure::Line)?;
    if let Some(record) = end.standing.now() {
        let mut line = [0u8; LINE];
        let n = hex_lines::lines(&record, &mut line);
        rt.write_all(&line[..n]).map_err(Failure::Output)?;
    }
    Ok(())
}

fn run(rt: &HostRuntime, from: u16, to: u16) {
    if let Err(failure) = answer(rt, SlotColumns { from, to }) {
        let _ = eprintln!(rt; "under: {failure}");
    }
}

// A text that cannot be written is ignored.
fn main(rt: HostRuntime) {
    match asked::<Words>(&rt) {
        Ok(Columns::Between(from, to)) => run(&rt, from, to),
        Ok(Columns::Help) => {
            let _ = rt.print(HELP);
        }
        Err(BadUsage) => {
            let _ = rt.eprint(USAGE);
        }
    }
}
