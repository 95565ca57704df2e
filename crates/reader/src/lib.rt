// The calls: the start, and reading with the state by value or lent.
#![tactic(auto)]

ghost use Rattle.std.specs.Prelude.{◌≡◌};
ghost use Rattle.printer.specs.Calls.{started_with};
ghost use Rattle.printer.specs.Promises.{StartPromise, ReadPromise, LentPromise};

use printer::answers::{Answer, Reading, Report, Started};
use printer::settings::{Setup, StartSettings};
use printer::starting::{plain_start, setup_of, usable};
use printer::state::Printer;
use registers::COUNT;
use registers::pack::pack;
use registers::unpack::unpack;

// The power-on state, with an answer.
fn started(answer: Answer, setup: Setup) -> Started
    ensures { result ≡ started_with answer setup }
{
    Started {
        answer,
        printer: Printer::power_on(setup),
    }
}

// Starts with settings that are taken; refuses any other.
pub fn start(settings: StartSettings) -> Started
    ensures { StartPromise settings result }
{
    if usable(settings) {
        return started(Answer::InputUsed, setup_of(settings));
    }
    started(Answer::SettingsRefused, setup_of(plain_start()))
}

// Reads input into records, on a state within its bounds: packed into registers, read on them, and unpacked.
pub fn read(printer: Printer, input: &[u8], allowance: usize, out: &mut [u8]) -> Reading
    ensures { ReadPromise printer input.now allowance out.old result out.new }
{
    let mut m = [0; COUNT];
    pack(&mut m, printer);
    let report = interpreter::read(&mut m, input, allowance, out);
    let left = unpack(&m);
    Reading {
        report,
        printer: left,
    }
}

// The same on a state that is lent: it is left as the call leaves it.
pub fn read_lent(printer: &mut Printer, input: &[u8], allowance: usize, out: &mut [u8]) -> Report
    ensures { LentPromise printer.old input.now allowance out.old result
        printer.new out.new }
{
    let r = read(*printer, input, allowance, out);
    *printer = r.printer;
    r.report
}

// The call by value, by way of the lent one.
pub fn read_by_lending(printer: Printer, input: &[u8], allowance: usize, out: &mut [u8]) -> Reading
    ensures { ReadPromise printer input.now allowance out.old result out.new }
{
    let mut p = printer;
    let report = read_lent(&mut p, input, allowance, out);
    Reading { report, printer: p }
}
