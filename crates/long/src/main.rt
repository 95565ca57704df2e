// A program: shows its standard input from power-on at 300 dots, automatic line feed off, on the widest paper. Its stored input is longer than a piece
// (cases/make_long).
#![tactic(auto)]

use printer::starting::plain_start;

fn main(rt: HostRuntime) {
    let started = reader::start(plain_start());
    let _ = listing::run(&rt, started.printer);
}
