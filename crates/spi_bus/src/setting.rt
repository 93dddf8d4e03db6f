// How a line moves the pins.
ghost use Rattle.std.specs.Prelude.{◌≡◌, ◌≤◌};
ghost use Rattle.spi_model.specs.Samples.{clock};
ghost use Rattle.spi_model.specs.Lines.{waits_of};

use datasheet::Sample;
use spi_model::Mode;

/// The most samples that hold before a bit.
const MOST_WAITS: u8 = 7;

/// How a line moves the pins: the SPI mode, how many samples hold before every bit, 0 to 7, and the level of WP, which stays.
#[derive(Clone, Copy, Debug, PartialEq, Eq)]
pub struct Setting {
    pub(crate) mode: Mode,
    pub(crate) waits: u8,
    pub(crate) wp: bool,
    ghost few: { waits ≤ 7 },
}

impl Setting {
    /// This mode, with so many samples that hold before every bit, of which more than 7 count as 7, and WP at this level.
    pub fn new(mode: Mode, waits: u8, wp: bool) -> Setting
        ensures mode { result.mode ≡ mode }
        ensures waits { result.waits ≡ waits_of waits }
        ensures wp { result.wp ≡ wp }
    {
        Setting {
            mode,
            waits: waits.min(MOST_WAITS),
            wp,
        }
    }

    /// The sample in a session with SI at a bit, and SCK and HOLD at these levels.
    pub(crate) fn clock(self, bit: bool, sck: bool, hold: bool) -> Sample
        ensures { result ≡ clock self.mode self.wp bit sck hold }
    {
        Sample {
            cs: false,
            sck,
            si: bit,
            wp: self.wp,
            hold,
        }
    }
}
