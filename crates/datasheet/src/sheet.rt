// One kind of chip.
ghost use Rattle.std.specs.Prelude.{◌%◌, ◌<◌, ◌≤◌};

use crate::command::Command;
use crate::part::Part;
use crate::refusal::Refusal;

/// In what the kinds of chip differ besides their size:
/// drop: the write latch falls at the end of a WRSR or WRITE session;
/// sleep: the chip has the command SLEEP;
/// fast: the chip has the command FSTRD.
#[derive(Clone, Copy, Debug, PartialEq, Eq)]
pub struct Marks {
    pub drop: bool,
    pub sleep: bool,
    pub fast: bool,
}

/// A sheet describes one kind of chip: its third and fourth ID byte, t and f, and its marks.
/// The low five bits of t, the density d, are from 1 to 5. `bytes` says again that t and f are bytes, since a clause about a
/// sheet behind a reference does not know it.
#[derive(Clone, Copy, Debug, PartialEq, Eq)]
pub struct Sheet {
    pub t: u8,
    pub f: u8,
    pub marks: Marks,
    ghost known: { (1 ≤ t % 32) × (t % 32 ≤ 5) },
    ghost bytes: { (t < 256) × (f < 256) },
}

impl Sheet {
    ghost use Rattle.std.specs.Prelude.{◌≡◌, if◌then◌else◌, Ok, Err};
    ghost use Rattle.datasheet.specs.declared.refusal.Refusal.TheVariants.{MemoryLength};
    ghost use Rattle.datasheet.specs.Sheets.{Made, cells, fits, identity};
    ghost use Rattle.datasheet.specs.Parts.{SheetOf};
    ghost use Rattle.datasheet.specs.Commands.{command_of};
    ghost use Rattle.datasheet.specs.Places.{next_place};

    /// The sheet with these ID bytes and marks; it is refused as no sheet where the density, the low five bits of t, is not from
    /// 1 to 5.
    pub fn new(t: u8, f: u8, marks: Marks) -> Result<Sheet, Refusal>
        ensures { Made t f marks result }
    {
        match t % 32 {
            1..=5 => Ok(Sheet { t, f, marks }),
            _ => Err(Refusal::NoSheet),
        }
    }

    /// The sheet of a part. Of `upper` the upper three bits go into the third ID byte.
    pub fn of(part: Part, upper: u8, f: u8) -> Sheet
        ensures { SheetOf part upper f result }
    {
        let t = upper - upper % 32 + part.density();
        Sheet {
            t,
            f,
            marks: part.marks(),
        }
    }

    /// The number of cells of the chip, each of which holds a byte.
    pub fn cells(self) -> usize
        ensures { result ≡ cells self }
    {
        1 << (10 + self.t % 32)
    }

    /// The place one byte on from a place in the memory: from the last cell it rolls over to cell 0.
    pub fn next_place(self, place: u16) -> u16
        ensures { result ≡ next_place self place }
    {
        // the remainder is below 2^15, the most cells of a sheet, so the cast loses nothing
        ((usize::from(place) + 1) % self.cells()) as u16
    }

    /// The four bytes of the ID, as one number of 32 bits: the byte that is sent first is the highest.
    pub fn identity(self) -> u32
        ensures { result ≡ identity self }
    {
        u32::from_be_bytes([0x04, 0x7F, self.t, self.f])
    }

    /// Whether a memory fits the chip: it is refused where it has not one byte a cell.
    pub fn check_memory(self, memory: &[u8]) -> Result<(), Refusal>
        ensures { result ≡ (if fits self memory.now then Ok tt else Err MemoryLength) }
    {
        if memory.len() == self.cells() {
            Ok(())
        } else {
            Err(Refusal::MemoryLength)
        }
    }

    /// The command of an op-code, if the chip has one.
    pub fn command(self, code: u8) -> Option<Command>
        ensures { result ≡ command_of self code }
    {
        match code {
            0x06 => Some(Command::Wren),
            0x04 => Some(Command::Wrdi),
            0x05 => Some(Command::Rdsr),
            0x01 => Some(Command::Wrsr),
            0x03 => Some(Command::Read),
            0x02 => Some(Command::Write),
            0x9F => Some(Command::Rdid),
            0x0B if self.marks.fast => Some(Command::Fstrd),
            0xB9 if self.marks.sleep => Some(Command::Sleep),
            _ => None,
        }
    }
}
