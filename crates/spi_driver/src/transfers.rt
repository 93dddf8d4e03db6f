// A write and a read through a driver over a bus to a chip that was left in any state.
ghost use Rattle.std.specs.Prelude.{◌≡◌, true, length};
ghost use Rattle.datasheet.specs.Chips.{deselected, whole};
ghost use Rattle.datasheet.specs.Calls.{run};
ghost use Rattle.datasheet.specs.Kept.{bounded};
ghost use Rattle.chip.specs.Views.{chip_of};
ghost use Rattle.spi_model.specs.Puts.{tracing, puts};
ghost use Rattle.spi_model.specs.Meanings.{made};
ghost use Rattle.spi_model.specs.Laws.{LineIsBus};
ghost use Rattle.spi_bus.specs.Ways.{wp_of, line_puts};
ghost use Rattle.spi_driver.specs.Carried.{CarriedOut};
ghost use Rattle.spi_driver.specs.Left.{samples, left_in};
ghost use Rattle.spi_driver.specs.Transfers.{transferred, transferred_parked, transfer_calls};

use crate::driver::Driver;
use board::{Board, ReadBoard};
use chip::{Chip, ParkedChip, Pins};
use datasheet::Refusal;
use spi_bus::{BusWork, Setting, SpiBus, Way, work_over, work_over_line};

/// What a write and the read behind it are answered: done, or why not.
#[derive(Drop)]
pub struct TransferOutcome {
    /// what the write is answered
    pub written: Result<(), Refusal>,
    /// what the read behind it is answered
    pub read: Result<(), Refusal>,
}

/// Puts samples by their bytes; a byte that is no sample counts for nothing.
fn put_all(chip: &mut Chip<'_>, before: &[u8])
    ensures state { chip_of chip.new ≡ run bounded (chip_of chip.old) (samples before.now) }
    ensures sheet { chip.new.sheet ≡ chip.old.sheet }
    ensures lent { chip.new.memory.ghost_name ≡ chip.old.memory.ghost_name }
{
    for byte in before {
        let _ = chip.sample(*byte);
    }
}

/// A write of bytes and a read into the buffer from the same start, through a driver. `start` is a place of the board, and
/// each byte is one cell.
#[derive(Drop)]
struct WriteAndRead<'b> {
    start: usize,
    bytes: &'b [u8],
}

impl BusWork for WriteAndRead<'_> {
    type Item = u8;

    type Answer = TransferOutcome;

    ghost Does = { λ asked b buffer outcome filled left.
        (record { outcome = outcome; buffer = filled; left = left.rec } ≡ transferred b asked.start asked.bytes.now buffer)
        × (left.sheet ≡ b.sheet) };

    ghost calls = { λ asked b buffer. transfer_calls b asked.start asked.bytes.now (length buffer) };

    #[tactic(auto, unfolding(crate::specs::Transfers::transferred_to))]
    fn carry_out<B: SpiBus>(self, bus: &mut B, buffer: &mut [u8]) -> TransferOutcome {
        let mut driver = Driver::new(bus);
        let written = driver.write(self.start, self.bytes);
        let read = driver.read(self.start, buffer);
        TransferOutcome { written, read }
    }
}

/// Writes bytes and reads into a buffer from the same start, through a driver over a line to these pins, whatever chip stands
/// behind them and in whatever state. It reaches the chip by samples alone, and these are the list of the definition; a fitted chip
/// is deselected behind them. So the samples carry out write and read, in both modes and with any number of held samples, on every
/// chip. Each is answered the refusal that a board answers: a chip whose ID is not known has no cells.
#[tactic(auto, using(spi_bus::proofs::Laws::lines, crate::proofs::AtPins::carried_out))]
pub fn transfer_over<P: Pins>(
    pins: &mut P,
    setting: Setting,
    start: usize,
    bytes: &[u8],
    buffer: &mut [u8],
) -> TransferOutcome
    ensures comes { record { outcome = result; buffer = buffer.new; left = (P.chip pins.new).rec } ≡
        transferred (made bounded setting.wp (P.chip pins.old)) start bytes.now buffer.old }
    ensures put { P.chip pins.new ≡ puts bounded (P.chip pins.old)
        (line_puts setting (transfer_calls (made bounded setting.wp (P.chip pins.old)) start bytes.now (length buffer.old))) }
    ensures traced { P.trace pins.new ≡ tracing P.traced (P.trace pins.old)
        (line_puts setting (transfer_calls (made bounded setting.wp (P.chip pins.old)) start bytes.now (length buffer.old))) }
    ensures session { (P.chip pins.new).fitted ≡ true → (P.chip pins.new).pins ≡ deselected }
    ensures sheet { (P.chip pins.new).sheet ≡ (P.chip pins.old).sheet }
    ensures lent { P.lent pins.new ≡ P.lent pins.old }
    ensures lines { (LineIsBus whole) × (LineIsBus bounded) }
    ensures carried { CarriedOut }
{
    work_over_line(pins, setting, WriteAndRead { start, bytes }, buffer)
}

/// Powers a parked chip over lent memory and leaves it as these samples leave it, in a session, asleep, or with its latch set;
/// then writes bytes and reads into a buffer from the same start, through a driver over a bus to it, and parks it again. Answers,
/// buffer, memory and stored bits are what the rules over the full list of bits say, on every sheet: one value, whichever bus is
/// taken, and whatever a line's mode and its held samples are.
pub fn transfer(
    parked: ParkedChip,
    memory: &mut [u8],
    before: &[u8],
    way: Way,
    start: usize,
    bytes: &[u8],
    buffer: &mut [u8],
) -> (ParkedChip, TransferOutcome)
    ensures comes { record { outcome = result.1; buffer = buffer.new; left = (memory.new, result.0.stored.bits) } ≡
        transferred_parked (left_in parked.sheet memory.old parked.stored.bits before.now (wp_of way)) start bytes.now buffer.old }
    ensures sheet { result.0.sheet ≡ parked.sheet }
{
    let mut chip = parked.power(memory);
    put_all(&mut chip, before);
    let outcome = work_over(&mut chip, way, WriteAndRead { start, bytes }, buffer);
    (chip.power_off(), outcome)
}
