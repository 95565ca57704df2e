// The rounding rule, the only way from units to dots.
ghost use Rattle.std.specs.Prelude.{◌≡◌, ◌+◌, ◌*◌, ◌-◌, ◌/◌, ◌%◌, ◌≤◌, ◌<◌};
ghost use Rattle.printer.specs.Units.{rounded, rest_word, rounding, per_inch_across, per_inch_down, across_rounding, row_dots};
ghost use Rattle.measures.specs.Exact.{packed, carried, dot_of, rest_of};

use printer::units::{Dots, Resolution, Rest, Rounded, Units};

// The rest, where the dots of so many 1/3600 dots are known.
fn with_dots(n: u64, whole: u32) -> Rounded
    requires { (whole ≡ (n + 1800) / 3600) × (n ≤ 1288490188500) }
    ensures { (result.dot.0 ≡ (n + 1800) / 3600) × (result.rest.0 ≡ (n + 65536 - 3600 * ((n + 1800) / 3600)) % 65536) }
{
    Rounded {
        dot: Dots(whole),
        rest: Rest(((n + 65536 - 3600 * whole as u64) % 65536) as u16),
    }
}

// The rounding rule: dot and rest, where `d` dots make an inch. Those of 203 are looked up: there is no division.
fn rounded(at: Units, d: u32) -> Rounded
    requires { d ≤ 300 }
    ensures { (result ≡ rounding d at.0) × ((result.dot.0 ≡ rounded d at.0) × ((result.rest.0 ≡ rest_word d at.0) × (result.dot.0 < 400000000))) }
{
    if d == 203 {
        return with_dots(at.0 as u64 * 203, inch::dots(at.0));
    }
    let n = at.0 as u64 * d as u64;
    with_dots(n, ((n + 1800) / 3600) as u32)
}

// The dot column of a place across, and its rest.
pub fn across(resolution: Resolution, at: Units) -> Rounded
    ensures { result ≡ across_rounding resolution at.0 }
{
    rounded(at, resolution.dots_across())
}

// The dot row of a place down.
pub fn row(resolution: Resolution, at: Units) -> Dots
    ensures { result ≡ row_dots resolution at.0 }
{
    rounded(at, resolution.dots_down()).dot
}

// An exact place across, or a step between two, as one number: 65,536 times what is over, and the dots. A step further is a sum and a comparison.
#[derive(Clone, Copy)]
pub struct Exact(pub u32);

impl Exact {
    // The exact place of a place, with the half that rounds.
    pub fn place(resolution: Resolution, at: Units) -> Exact
        ensures { result ≡ record { 0 = packed (at.0 * per_inch_across resolution + 1800) } }
    {
        let r = rounded(at, resolution.dots_across());
        let over = (r.rest.0 as u32 + 1800) % 65536;
        Exact(65536 * over + r.dot.0)
    }

    // An exact step: a length without that half.
    pub fn step(resolution: Resolution, by: Units) -> Exact
        ensures { result ≡ record { 0 = packed (by.0 * per_inch_across resolution) } }
    {
        let r = rounded(by, resolution.dots_across());
        let rest = r.rest.0 as u32;
        if rest < 32768 {
            return Exact(65536 * rest + r.dot.0);
        }
        Exact(65536 * (rest - 61936) + (r.dot.0 - 1))
    }

    // The exact place a step further.
    pub fn further(self, by: Exact) -> Exact
        ensures { result ≡ record { 0 = carried ((self.0 + by.0) % 4294967296) } }
    {
        let sum = ((self.0 as u64 + by.0 as u64) % 4294967296) as u32;
        if sum < 235929600 {
            return Exact(sum);
        }
        Exact(sum - 235929599)
    }

    // Its dot.
    pub fn dot(self) -> Dots
        ensures { result ≡ record { 0 = dot_of self.0 } }
    {
        Dots(self.0 % 65536)
    }

    // Its rest: half a dot less than what is over.
    pub fn rest(self) -> Rest
        ensures { result ≡ record { 0 = rest_of self.0 } }
    {
        Rest(((self.0 / 65536 + 63736) % 65536) as u16)
    }
}
