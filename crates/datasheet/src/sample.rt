ghost use Rattle.std.specs.Prelude.{◌≡◌, Ok};
ghost use Rattle.datasheet.specs.Samples.{levels, sample_of, byte_of};

use crate::refusal::Refusal;

/// One reading of the five input pins; true is high.
#[derive(Clone, Copy, Debug, PartialEq, Eq)]
pub struct Sample {
    pub cs: bool,
    pub sck: bool,
    pub si: bool,
    pub wp: bool,
    pub hold: bool,
}

impl Sample {
    /// CS low, a session open: SCK and SI low, WP and HOLD high.
    pub fn selected() -> Sample
        ensures { result ≡ levels 0x18 }
    {
        Sample {
            cs: false,
            sck: false,
            si: false,
            wp: true,
            hold: true,
        }
    }

    /// CS high, no session open; the others as before.
    pub fn deselected() -> Sample
        ensures { result ≡ levels 0x19 }
    {
        Sample {
            cs: true,
            ..Sample::selected()
        }
    }
}

// The levels that a byte stands for: bit 0 CS, bit 1 SCK, bit 2 SI, bit 3 WP, bit 4 HOLD.
// A byte with a bit 5, 6 or 7 is no sample.
impl TryFrom<u8> for Sample {
    type Error = Refusal;

    ghost try_from_gives = { λ byte r. r ≡ sample_of byte };

    fn try_from(byte: u8) -> Result<Sample, Refusal> {
        if byte >= 32 {
            return Err(Refusal::NotASample);
        }
        Ok(Sample {
            cs: byte % 2 == 1,
            sck: byte / 2 % 2 == 1,
            si: byte / 4 % 2 == 1,
            wp: byte / 8 % 2 == 1,
            hold: byte / 16 % 2 == 1,
        })
    }
}

// The byte of a sample, which stands for these levels.
impl From<Sample> for u8 {
    ghost from_gives = { λ sample byte. (byte ≡ byte_of sample) × (sample_of byte ≡ Ok sample) };

    fn from(sample: Sample) -> u8 {
        u8::from(sample.cs)
            + 2 * u8::from(sample.sck)
            + 4 * u8::from(sample.si)
            + 8 * u8::from(sample.wp)
            + 16 * u8::from(sample.hold)
    }
}
