// What a chip holds besides its cells.
ghost use Rattle.std.specs.Prelude.{◌≡◌, true, false};

use crate::session::Session;
use crate::stored::StoredBits;
use datasheet::{Command, Sheet};

/// The stored bits and the write latch, which the status byte shows, and the sleep mark, which it does not.
#[derive(Clone, Copy, Debug, PartialEq, Eq)]
pub struct Status {
    pub stored: StoredBits,
    pub latch: bool,
    pub asleep: bool,
    ghost still: { asleep ≡ true → latch ≡ false },
}

// The rules that look at no cell; what they say is said of a record without cells.
impl Status {
    ghost use Rattle.std.specs.Prelude.{ℕ, List, []};
    ghost use Rattle.datasheet.specs.Records.{status};
    ghost use Rattle.datasheet.specs.Protection.{first_protected, may_write, may_store};
    ghost use Rattle.datasheet.specs.Chips.{closed_in};
    ghost use Rattle.datasheet.specs.Kept.{bounded};
    ghost use Rattle.chip.specs.Held.{held};

    /// With power just given: awake, and the latch at 0.
    pub(crate) fn powered(stored: StoredBits) -> Status
        ensures stored { result.stored ≡ stored }
        ensures latch { result.latch ≡ false }
        ensures asleep { result.asleep ≡ false }
    {
        Status {
            stored,
            latch: false,
            asleep: false,
        }
    }

    /// The status byte. It is no conversion, since it leaves out the sleep mark.
    pub(crate) fn byte(self) -> u8
        ensures { result ≡ status (held [] self) }
    {
        self.stored.bits + 2 * u8::from(self.latch)
    }

    /// The first protected cell, by BP1 and BP0.
    fn first_protected(self, sheet: Sheet) -> usize
        ensures { result ≡ first_protected sheet (held [] self) }
    {
        let cells = sheet.cells();
        // two bits, decided where they are read: an enum of them would be made and matched at once
        match self.stored.bits / 4 % 4 {
            0 => cells,
            1 => cells - cells / 4,
            2 => cells / 2,
            _ => 0,
        }
    }

    /// Whether WRITE may put a byte into this cell.
    pub(crate) fn may_write(self, sheet: Sheet, place: u16) -> bool
        ensures { result ≡ may_write sheet (held [] self) place }
    {
        self.latch && usize::from(place) < self.first_protected(sheet)
    }

    /// Whether WRSR may store at this level of WP.
    pub(crate) fn may_store(self, wp: bool) -> bool
        ensures { result ≡ may_store wp (held [] self) }
    {
        self.latch && !(self.stored.bits / 128 % 2 == 1 && !wp)
    }

    /// The end of a session; that of a spoiled one acts as for no command. It wakes a sleeping chip, and does no more there.
    pub(crate) fn end(&mut self, sheet: Sheet, last: Session)
        ensures { (memory : List ℕ) → held memory self.new ≡
            closed_in bounded sheet last.course (held memory self.old) last.kept }
    {
        match last.kept.command(sheet) {
            _ if self.asleep => self.asleep = false,
            _ if last.course.is_spoiled() => {}
            Some(Command::Wrsr | Command::Write) if sheet.marks.drop => self.latch = false,
            Some(Command::Sleep) if last.kept.count == 8 => {
                self.latch = false;
                self.asleep = true;
            }
            _ => {}
        }
    }
}
