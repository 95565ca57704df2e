// The countries of letters.
ghost use Rattle.std.specs.Prelude.{◌≡◌};
ghost use Rattle.printer.specs.Escapes.{countries};

// Those that ESC R may name: 0 to 13, 40h.
pub fn named(n: u8) -> bool
    ensures { result ≡ countries n }
{
    matches!(n, 0..=13 | 0x40)
}
