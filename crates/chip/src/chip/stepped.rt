// Bytes taken at once, in a session of whole bytes.
ghost use Rattle.std.specs.Prelude.{◌≡◌, ◌-◌, ◌*◌, ◌/◌, ◌%◌, ◌^◌, nat_le, if◌then◌else◌};
ghost use Rattle.datasheet.specs.Sheets.{identity};
ghost use Rattle.datasheet.specs.Commands.{command_at};
ghost use Rattle.spi_model.specs.SteppedBytes.{whole_bytes, taken_byte, record_after, shown_byte, read_byte};
ghost use Rattle.spi_model.specs.SteppedChips.{stepped_once, read_once};
ghost use Rattle.chip.specs.Views.{record_of, chip_of, moment_of, SameButRecord};

use super::Chip;
use super::rules::cell;
use crate::session::Session;
use datasheet::{Command, Level, Registers, Sheet};
use spi_model::NOT_DRIVEN;

/// Whether a session has a whole number of bytes.
fn has_whole_bytes(kept: Registers) -> bool
    ensures { result ≡ whole_bytes kept }
{
    kept.count % 8 == 0 && kept.count <= 40
}

/// The address counter after one byte more.
fn place_after(sheet: Sheet, kept: Registers, byte: u8) -> u16
    ensures { result ≡ (taken_byte sheet kept byte).place }
{
    if kept.count < 8 {
        kept.place
    } else if kept.count < 24 {
        // a place is below 2^15, the most cells of a sheet, so the cast loses nothing, and `try_from` could not fail
        ((256 * usize::from(kept.place) + usize::from(byte)) % sheet.cells()) as u16
    } else if kept.count >= kept.first_data(sheet) {
        sheet.next_place(kept.place)
    } else {
        kept.place
    }
}

/// What is kept of a session after one byte more.
fn taken_byte(sheet: Sheet, kept: Registers, byte: u8) -> Registers
    ensures { result ≡ taken_byte sheet kept byte }
{
    let count = if kept.count >= 40 { 40 } else { kept.count + 8 };
    let code = if kept.count < 8 { byte } else { kept.code };
    Registers {
        count,
        code,
        place: place_after(sheet, kept, byte),
        shift: byte,
    }
}

/// The byte of the ID that is shown after n bits; behind its last one its last bit is held.
fn identity_byte(sheet: Sheet, n: u8) -> u8
    ensures { result ≡
        (if nat_le n 32 then identity sheet / 2 ^ (32 - n) % 256 else 255 * (identity sheet % 2)) }
{
    // of 64 bits, since all 32 may be shifted out; what is cast is below 256, so the casts lose nothing
    let identity = u64::from(sheet.identity());
    if n <= 32 {
        ((identity >> (32 - n)) % 256) as u8
    } else {
        255 * (identity % 2) as u8
    }
}

impl Chip<'_> {
    /// The byte that is shown while the next one is taken. A sleeping chip drives nothing.
    fn shown_byte(&self, kept: Registers) -> u8
        ensures { result ≡ (if self.now.status.asleep then NOT_DRIVEN else
            shown_byte self.now.sheet (command_at self.now.sheet kept.count kept.code) (record_of self.now) kept.count kept.place) }
    {
        let n = kept.count;
        match kept.command(self.sheet) {
            _ if self.status.asleep => NOT_DRIVEN,
            Some(Command::Rdsr) => self.status.byte(),
            Some(Command::Rdid) => identity_byte(self.sheet, n),
            Some(Command::Read | Command::Fstrd) if n >= kept.first_data(self.sheet) => {
                cell(self.memory, kept.place)
            }
            _ => NOT_DRIVEN,
        }
    }

    /// The byte that is read: its highest bit is what SO shows before the first rise, the others are those of the byte shown.
    fn read_byte(&self, kept: Registers, so: Level) -> u8
        ensures { result ≡ read_byte self.now.sheet (moment_of self.now kept so) }
    {
        128 * u8::from(so.bit()) + self.shown_byte(kept) % 128
    }

    /// Takes a byte, by its last bit; what is kept of the session then. A sleeping chip takes nothing.
    fn take_byte(&mut self, kept: Registers, wp: bool, byte: u8) -> Registers
        ensures kept { result ≡
            (if self.old.status.asleep then kept else taken_byte self.old.sheet kept byte) }
        ensures rec { record_of self.new ≡
            (if self.old.status.asleep then record_of self.old else record_after self.old.sheet wp (record_of self.old) kept byte) }
        ensures asleep { self.new.status.asleep ≡ self.old.status.asleep }
        ensures same { SameButRecord self.old self.new }
    {
        if self.status.asleep {
            return kept;
        }
        let taken = taken_byte(self.sheet, kept, byte);
        self.obey(wp, taken, kept.place);
        taken
    }

    /// Takes a byte at once where that can be, and answers the byte that is read: the chip is left as by the rises and falls of
    /// that byte. Otherwise nothing happens, and FFh is read.
    pub(crate) fn step_byte(&mut self, wp: bool, byte: u8) -> u8
        ensures read { result ≡ read_once (chip_of self.old) }
        ensures state { chip_of self.new ≡ stepped_once (chip_of self.old) wp byte }
        ensures lent { self.new.memory.ghost_name ≡ self.old.memory.ghost_name }
    {
        match self.session {
            Some(last @ Session { sck: false, .. })
                if last.course.runs() && has_whole_bytes(last.kept) && self.is_fitted() => {
                let read = self.read_byte(last.kept, last.so);
                let kept = self.take_byte(last.kept, wp, byte);
                let so = self.show(kept);
                self.session = Some(Session { kept, so, ..last });
                read
            }
            _ => NOT_DRIVEN,
        }
    }
}
