// A chip, parked or with power: its power, and two chips compared.
ghost use Rattle.std.specs.Prelude.{ℕ, ◌<◌, slice_index};

mod rules;
mod sample;
mod stepped;

use crate::session::Session;
use crate::status::Status;
use crate::stored::StoredBits;
use datasheet::Sheet;

/// A parked chip has no power: its sheet, and the stored status bits. It takes no samples, and powering it uses it up.
pub struct ParkedChip {
    sheet: Sheet,
    stored: StoredBits,
}

/// A chip with power, over the memory that it was lent, and its session, if one is open. It is fitted if that memory fits
/// its sheet; else it is blank: its SO is always high-Z, and it changes nothing. `bytes` says again that the memory holds bytes,
/// since a clause about a chip behind a reference does not know it.
pub struct Chip<'m> {
    memory: &'m mut [u8],
    sheet: Sheet,
    status: Status,
    session: Option<Session>,
    ghost bytes: { (i : ℕ) → slice_index memory.now i < 256 },
}

impl ParkedChip {
    ghost use Rattle.std.specs.Prelude.{◌≡◌};
    ghost use Rattle.datasheet.specs.Records.{stored_bits};
    ghost use Rattle.datasheet.specs.Calls.{powered};
    ghost use Rattle.chip.specs.Views.{chip_of};

    /// A parked chip of this sheet. Bits 1 and 0 of the given status byte are dropped.
    pub fn new(sheet: Sheet, status: u8) -> ParkedChip
        ensures sheet { result.sheet ≡ sheet }
        ensures stored { result.stored.bits ≡ stored_bits status }
    {
        ParkedChip {
            sheet,
            stored: StoredBits::from(status),
        }
    }

    /// Takes a parked chip apart into its sheet and its stored bits.
    pub fn into_parts(self) -> (Sheet, u8)
        ensures sheet { result.0 ≡ self.sheet }
        ensures stored { result.1 ≡ self.stored.bits }
    {
        let ParkedChip { sheet, stored } = self;
        (sheet, stored.bits)
    }

    /// Powers the chip over lent memory. A memory that does not fit the sheet makes a blank chip.
    pub fn power(self, memory: &mut [u8]) -> Chip<'_>
        ensures state { chip_of result ≡ powered self.sheet memory.old self.stored.bits }
        ensures lent { result.memory.ghost_name ≡ memory.entry.ghost_name }
    {
        let ParkedChip { sheet, stored } = self;
        Chip {
            memory,
            sheet,
            status: Status::powered(stored),
            session: None,
        }
    }
}

impl Chip<'_> {
    ghost use Rattle.std.specs.Prelude.{◌≡◌, Decides};
    ghost use Rattle.datasheet.specs.Sheets.{fits};
    ghost use Rattle.datasheet.specs.Alike.{Alike};
    ghost use Rattle.datasheet.specs.Calls.{Sendable, answers, cycled};
    ghost use Rattle.datasheet.specs.Chips.{whole};
    ghost use Rattle.datasheet.specs.Kept.{bounded};
    ghost use Rattle.chip_laws.specs.Laws.{ToldApart};
    ghost use Rattle.chip.specs.Views.{record_of, chip_of, Resting};

    /// Whether the memory fits the sheet.
    fn is_fitted(&self) -> bool
        ensures { result ≡ fits self.now.sheet self.now.memory.now }
    {
        self.sheet.check_memory(self.memory).is_ok()
    }

    /// Takes power away: the parked chip is given back, and the memory keeps its bytes.
    pub fn power_off(self) -> ParkedChip
        ensures memory { self.exit.0.now ≡ self.entry.memory.now }
        ensures stored { result.stored.bits ≡ self.entry.status.stored.bits }
        ensures sheet { result.sheet ≡ self.entry.sheet }
    {
        let Chip {
            memory: _,
            sheet,
            status,
            session: _,
        } = self;
        ParkedChip {
            sheet,
            stored: status.stored,
        }
    }

    /// Takes power away and gives it back over the same memory.
    pub fn power_cycle(&mut self)
        ensures state { chip_of self.new ≡ cycled (chip_of self.old) }
        ensures lent { self.new.memory.ghost_name ≡ self.old.memory.ghost_name }
    {
        self.status = Status::powered(self.status.stored);
        self.session = None;
    }

    /// Whether two chips have equal records. If both rest, deselected and fitted, and are chips of one sheet, this is whether
    /// no list of samples and power cycles that can be sent tells them apart.
    #[tactic(auto, using(crate::proofs::Laws::apart))]
    pub fn same_record(&self, other: &Chip<'_>) -> bool
        ensures exact { Decides result (record_of self.now ≡ record_of other.now) }
        ensures untold { Resting self.now → Resting other.now → self.now.sheet ≡ other.now.sheet →
            Decides result (Alike Sendable (answers bounded) (answers bounded) (chip_of self.now) (chip_of other.now)) }
        ensures law { (ToldApart whole) × (ToldApart bounded) }
    {
        *self.memory == *other.memory && self.status == other.status
    }
}
