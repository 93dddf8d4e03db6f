ghost use Rattle.std.specs.Prelude.{◌≡◌};

use datasheet::Sample;

/// How SCK is clocked: in mode 0 it rests low and each bit is a rise and a fall; in mode 3 it rests high and each bit is a
/// fall and a rise.
#[derive(Clone, Copy, Debug, PartialEq, Eq)]
pub enum Mode {
    Mode0,
    Mode3,
}

impl Mode {
    ghost use Rattle.spi_model.specs.Samples.{rest, chip_select};

    /// The level of SCK at rest; true is high.
    pub fn rest(self) -> bool
        ensures { result ≡ rest self }
    {
        match self {
            Mode::Mode0 => false,
            Mode::Mode3 => true,
        }
    }

    /// The sample with CS and WP at these levels, SI low, HOLD high and SCK at rest. CS low begins a session, CS high ends it.
    pub fn chip_select(self, wp: bool, cs: bool) -> Sample
        ensures { result ≡ chip_select self wp cs }
    {
        Sample {
            cs,
            sck: self.rest(),
            si: false,
            wp,
            hold: true,
        }
    }
}
