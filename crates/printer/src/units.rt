// Lengths in units and in dots.
ghost use Rattle.std.specs.Prelude.{◌≡◌};
ghost use Rattle.printer.specs.Units.{per_inch_across, per_inch_down};

// A length in units of 1/3600 inch.
#[derive(Clone, Copy)]
pub struct Units(pub u32);

// A length in printer dots.
#[derive(Clone, Copy)]
pub struct Dots(pub u32);

// How far a length is past its dots, in 1/3600 dot: a signed number of 16 bits, held as a word.
#[derive(Clone, Copy)]
pub struct Rest(pub u16);

// What the rounding rule gives of a length: its dots and the rest.
#[derive(Clone, Copy)]
pub struct Rounded {
    pub dot: Dots,
    pub rest: Rest,
}

#[derive(Clone, Copy)]
pub enum Resolution {
    Dots300,
    Dots203,
}

impl Resolution {
    // The dots of an inch across.
    pub fn dots_across(self) -> u32
        ensures { result ≡ per_inch_across self }
    {
        match self {
            Resolution::Dots300 => 300,
            Resolution::Dots203 => 203,
        }
    }

    // The dots of an inch down.
    pub fn dots_down(self) -> u32
        ensures { result ≡ per_inch_down self }
    {
        match self {
            Resolution::Dots300 => 300,
            Resolution::Dots203 => 200,
        }
    }
}
