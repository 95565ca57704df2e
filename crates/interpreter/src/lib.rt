// The calls on registers.
#![tactic(auto)]

mod controls;
mod escapes;
mod letters;
mod lines;
mod lists;
mod margins;
mod master;
mod moves;
mod output;
mod pages;
mod positions;
mod reading;
mod series;
mod settings;
mod steps;
mod tabs;
mod turn;

ghost use Rattle.std.specs.Prelude.{◌≡◌};
ghost use Rattle.printer.specs.PowerOn.{power_on};
ghost use Rattle.registers.specs.State.{registers_of};
ghost use Rattle.interpreter.specs.Calls.{ReadsRegisters, StartsRegisters};

use accepting::bounds::examine;
use printer::answers::{Answer, Report};
use printer::commands::Waiting;
use printer::settings::{Setup, StartSettings};
use printer::starting::{plain_start, setup_of, usable};
use reading::run;
use registers::COUNT;
use registers::pending::{pending_of, store_pending};
use registers::power_on::{clear_channels, power_on};

// Stores the power-on state, and gives an answer.
fn started(m: &mut [u32; COUNT], answer: Answer, setup: Setup) -> Answer
    ensures { (result ≡ answer) × (m.new ≡ registers_of (power_on setup)) }
{
    clear_channels(m);
    power_on(m, setup);
    store_pending(m, pending_of(Waiting::Nothing));
    answer
}

// Starts with settings that are taken; refuses any other.
pub fn start(m: &mut [u32; COUNT], settings: StartSettings) -> Answer
    ensures { StartsRegisters settings result m.new }
{
    if usable(settings) {
        return started(m, Answer::InputUsed, setup_of(settings));
    }
    started(m, Answer::SettingsRefused, setup_of(plain_start()))
}

// Reads input into records, on registers of a state within its bounds.
pub fn read(m: &mut [u32; COUNT], input: &[u8], allowance: usize, out: &mut [u8]) -> Report
    ensures { ReadsRegisters m.old input.now allowance out.old result
        m.new out.new }
{
    let Ok(waiting) = examine(m) else {
        return Report {
            answer: Answer::StateRefused,
            read: 0,
            written: 0,
        };
    };
    let ran = run(waiting, m, input, allowance, out);
    store_pending(m, pending_of(ran.waiting));
    ran.report
}
