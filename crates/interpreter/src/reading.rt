// The loop of a reading call.
ghost use Rattle.std.specs.Prelude.{◌≡◌};
ghost use Rattle.printer.specs.declared.state.Printer.{Printer};
ghost use Rattle.registers.specs.declared.pending.Pending.{Pending};
ghost use Rattle.interpreter.specs.Taking.{Current, Kept, RunPromise};

use crate::turn::{ROOM, turn};
use printer::answers::{Answer, Report};
use printer::commands::Waiting;
use registers::COUNT;

// What the loop gives back; the rest of the state is in the registers.
#[derive(Drop)]
pub(crate) struct Ran {
    pub waiting: Waiting,
    pub report: Report,
}

fn ended(answer: Answer, waiting: Waiting, read: usize, written: usize) -> Ran
    ensures { result ≡ record { waiting = waiting; report = record { answer = answer; read = read; written = written } } }
{
    let report = Report {
        answer,
        read,
        written,
    };
    Ran { waiting, report }
}

// Reads turn by turn, until the input or the allowance is used up or the output has no room for a byte's records.
pub(crate) fn run(
    waiting: Waiting,
    m: &mut [u32; COUNT],
    input: &[u8],
    allowance: usize,
    out: &mut [u8],
) -> Ran
    requires { Kept waiting m.old }
    ensures { (p : Printer) (v : Pending) → Current p v waiting m.old
        → RunPromise p v input.now allowance out.old result m.new out.new }
{
    let mut w = waiting;
    let mut at: usize = 0;
    let mut left = allowance;
    let mut written: usize = 0;
    loop {
        if at == input.len() {
            return ended(Answer::InputUsed, w, at, written);
        }
        let room = out.len() - written;
        if left == 0 {
            return ended(Answer::AllowanceUsed, w, at, written);
        }
        if room < ROOM {
            return ended(Answer::OutputFull, w, at, written);
        }
        let stop = at + left.min(input.len() - at);
        let t = turn(w, &mut *m, &input[at..stop], &mut out[written..]);
        let next = t.waiting;
        w = next;
        at += t.read;
        left -= t.read;
        written += t.written;
    }
}
