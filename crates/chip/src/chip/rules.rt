// The rules of the chip, over what it keeps of a session.
ghost use Rattle.std.specs.Prelude.{◌≡◌, ◌<◌, true, false, if◌then◌else◌, slice_index, slice_set};
ghost use Rattle.datasheet.specs.Bits.{bit_at};
ghost use Rattle.datasheet.specs.Levels.{driven};
ghost use Rattle.datasheet.specs.Commands.{command_at};
ghost use Rattle.datasheet.specs.Rises.{completes, effect};
ghost use Rattle.datasheet.specs.Kept.{taken, rise_kept, fall_kept};
ghost use Rattle.datasheet.specs.declared.level.Level.TheVariants.{HighZ};
ghost use Rattle.chip.specs.Views.{record_of, SameButRecord};

use super::Chip;
use crate::stored::StoredBits;
use datasheet::{Command, Level, Registers, Sample};

/// The level that shows bit i of a number.
fn bit_level(x: u32, i: u8) -> Level
    requires { i < 32 }
    ensures { result ≡ driven (bit_at i x) }
{
    Level::from((x >> i) % 2 == 1)
}

/// Whether bit n completes a data byte of WRITE.
fn completes(n: u8) -> bool
    ensures { result ≡ completes n }
{
    n >= 32 && n % 8 == 0
}

/// The byte in a cell.
pub(super) fn cell(memory: &[u8], place: u16) -> u8
    ensures { result ≡ slice_index memory.now place }
{
    memory.get(usize::from(place)).copied().unwrap_or(0)
}

/// Puts a byte into a cell.
fn write_cell(memory: &mut [u8], place: u16, byte: u8)
    ensures { memory.new ≡ slice_set memory.old place byte }
{
    // not by `get_mut`: after its loan the library says nothing of what a slice holds
    let place = usize::from(place);
    if place < memory.len() {
        memory[place] = byte;
    }
}

impl Chip<'_> {
    /// What the last bit of a session does in a chip that is awake: `taken` is what is kept with that bit, and `place` the
    /// cell of the data byte that it may complete.
    pub(super) fn obey(&mut self, wp: bool, taken: Registers, place: u16)
        requires { self.old.status.asleep ≡ false }
        ensures rec { record_of self.new ≡ effect self.old.sheet (command_at self.old.sheet taken.count taken.code)
            wp (record_of self.old) taken.count place taken.shift }
        ensures same { SameButRecord self.old self.new }
    {
        let n = taken.count;
        let byte = taken.shift;
        match taken.command(self.sheet) {
            Some(Command::Wren) if n == 8 => self.status.latch = true,
            Some(Command::Wrdi) if n == 8 => self.status.latch = false,
            Some(Command::Wrsr) if n == 16 && self.status.may_store(wp) => {
                self.status.stored = StoredBits::from(byte)
            }
            Some(Command::Write) if completes(n) && self.status.may_write(self.sheet, place) => {
                write_cell(self.memory, place, byte)
            }
            _ => {}
        }
    }

    /// A rise takes the level of SI as the next bit; what is kept of the session then. A sleeping chip takes nothing.
    pub(super) fn take(&mut self, kept: Registers, sample: Sample) -> Registers
        ensures kept { result ≡
            (if self.old.status.asleep then kept else taken self.old.sheet kept sample.si) }
        ensures rec { record_of self.new ≡
            (if self.old.status.asleep then record_of self.old else rise_kept self.old.sheet sample.wp (record_of self.old) kept sample.si) }
        ensures same { SameButRecord self.old self.new }
    {
        if self.status.asleep {
            return kept;
        }
        let taken = kept.taken(self.sheet, sample.si);
        self.obey(sample.wp, taken, kept.place);
        taken
    }

    /// What SO shows after a fall.
    pub(super) fn show(&self, kept: Registers) -> Level
        ensures { result ≡
            (if self.now.status.asleep then HighZ else fall_kept self.now.sheet (record_of self.now) kept) }
    {
        let n = kept.count;
        let first = kept.first_data(self.sheet);
        match kept.command(self.sheet) {
            _ if self.status.asleep => Level::HighZ,
            Some(Command::Rdsr) => {
                bit_level(u32::from(self.status.byte()), 7 - n.saturating_sub(8) % 8)
            }
            Some(Command::Rdid) => {
                bit_level(self.sheet.identity(), 31 - n.saturating_sub(8).min(31))
            }
            Some(Command::Read | Command::Fstrd) if n >= first => {
                bit_level(
                    u32::from(cell(self.memory, kept.place)),
                    7 - (n - first) % 8,
                )
            }
            _ => Level::HighZ,
        }
    }
}
