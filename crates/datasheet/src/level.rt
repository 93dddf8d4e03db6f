ghost use Rattle.std.specs.Prelude.{◌≡◌, Some};
ghost use Rattle.datasheet.specs.Levels.{level_number, level_name, driven, read_as};

use std::fmt;

/// What the pin SO shows.
#[derive(Clone, Copy, Debug, PartialEq, Eq)]
pub enum Level {
    Low,
    High,
    HighZ,
}

impl Level {
    /// The bit that is read off SO; high-Z is read as 1. It is no conversion, since two levels give one bit.
    pub fn bit(self) -> bool
        ensures { result ≡ read_as self }
    {
        match self {
            Level::Low => false,
            Level::High | Level::HighZ => true,
        }
    }
}

// SO driven to a bit.
impl From<bool> for Level {
    ghost from_gives = { λ bit level. level ≡ driven bit };

    fn from(bit: bool) -> Level {
        if bit { Level::High } else { Level::Low }
    }
}

// 0 for low, 1 for high, 2 for high-Z.
impl From<Level> for u8 {
    ghost from_gives = { λ level number. number ≡ level_number level };

    fn from(level: Level) -> u8 {
        match level {
            Level::Low => 0,
            Level::High => 1,
            Level::HighZ => 2,
        }
    }
}

impl fmt::Display for Level {
    ghost output = { λ level. Some (level_name level) };

    fn fmt<W: fmt::Write>(&self, f: &mut fmt::Formatter<W>) -> fmt::Result {
        f.write_str(match self {
            Level::Low => "low",
            Level::High => "high",
            Level::HighZ => "high-Z",
        })
    }
}
