ghost use Rattle.std.specs.Prelude.{◌≡◌};
ghost use Rattle.datasheet.specs.Refusals.{refusal_number, refusal_place};

use thiserror::Error;

/// Why a call is refused. Every refusal has a number, and leaves everything as it was.
#[derive(Clone, Copy, Debug, PartialEq, Eq, Error)]
pub enum Refusal {
    /// no sheet: the density is not from 1 to 5
    #[error("there is no sheet with this third ID byte: its low five bits, the density, are not from 1 to 5")]
    NoSheet,
    /// the memory has not as many bytes as the chip has cells
    #[error("the memory does not have exactly as many bytes as the chip has cells")]
    MemoryLength,
    /// a sample has a bit 5, 6 or 7
    #[error("a byte with bit 5, 6 or 7 set is no sample of the pins")]
    NotASample,
    /// start + count is above the size, or there is no such range
    #[error("the range does not lie in the board, or the shield has no such range")]
    OutOfRange,
    /// the range of a write holds a fenced cell
    #[error("a cell in the range of the write is fenced")]
    Fenced,
    /// the ID that was read is none that the driver knows
    #[error("the ID that was read is not known: 04h, 7Fh and a density from 1 to 5 are wanted")]
    UnknownId,
    /// a shield has eight ranges already
    #[error("the shield has eight ranges already")]
    ShieldFull,
    /// the kind of a step is not known to this run; the place is that of the kind byte
    #[error("the kind of the step at byte {place} is not known to this run")]
    UnknownKind { place: usize },
    /// a script ends inside a step; the place is that of its kind byte
    #[error("the script ends inside the step at byte {place}")]
    ShortStep { place: usize },
    /// the answer buffer has fewer than nine bytes for each step
    #[error("the answer buffer has fewer than nine bytes for each step")]
    ShortBuffer,
}

impl Refusal {
    /// The place of the kind byte, where a step of a script is at fault.
    pub fn place(self) -> Option<usize>
        ensures { result ≡ refusal_place self }
    {
        match self {
            Refusal::UnknownKind { place } | Refusal::ShortStep { place } => Some(place),
            _ => None,
        }
    }
}

// The number by which a refusal is known, from 1 to 10.
impl From<Refusal> for u8 {
    ghost from_gives = { λ refusal number. number ≡ refusal_number refusal };

    fn from(refusal: Refusal) -> u8 {
        match refusal {
            Refusal::NoSheet => 1,
            Refusal::MemoryLength => 2,
            Refusal::NotASample => 3,
            Refusal::OutOfRange => 4,
            Refusal::Fenced => 5,
            Refusal::UnknownId => 6,
            Refusal::ShieldFull => 7,
            Refusal::UnknownKind { .. } => 8,
            Refusal::ShortStep { .. } => 9,
            Refusal::ShortBuffer => 10,
        }
    }
}
