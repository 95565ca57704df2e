// So many of a length: lines or columns, in units, before it is known whether they are within the page.
ghost use Rattle.std.specs.Prelude.{◌≡◌, ◌*◌, ◌≤◌};

use printer::units::Units;

// A length, so many times.
pub fn times(length: Units, n: u32) -> u64
    ensures { (result ≡ n * length.0) × (result ≤ n * 4294967295) }
{
    n as u64 * length.0 as u64
}
