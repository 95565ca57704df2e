// A program: ESC/P on standard input, a line of hex for each record on standard output.
#![tactic(auto)]

use command_line::{BadUsage, Choice, Options, asked};
use printer::answers::Answer;
use printer::settings::StartSettings;

const HELP: &str = "\
escp [--dots 203|300] [--width N] [--auto-feed] < INPUT
Reads ESC/P and writes each record as a line of hex digits.
  --dots N     dots an inch: 203 or 300 (300 if not given)
  --width N    width of the paper in 1/3600 inch: 7200 to 28800 (28800 if not given)
  --auto-feed  a line feed after each carriage return
  --help       this text
";

const USAGE: &str =
    "escp: takes --dots 203, --dots 300, --width 7200 to 28800, --auto-feed and --help\n";

const REFUSED: &str = "escp: --dots takes 203 or 300, --width takes 7200 to 28800\n";

fn start(rt: &HostRuntime, settings: StartSettings) {
    let started = reader::start(settings);
    match started.answer {
        Answer::InputUsed => {
            let _ = listing::run(rt, started.printer);
        }
        _ => {
            let _ = rt.eprint(REFUSED);
        }
    }
}

// A text that cannot be written is ignored.
fn main(rt: HostRuntime) {
    match asked::<Options>(&rt) {
        Ok(Choice::Run(settings)) => start(&rt, settings),
        Ok(Choice::Help) => {
            let _ = rt.print(HELP);
        }
        Err(BadUsage) => {
            let _ = rt.eprint(USAGE);
        }
    }
}
