// A driver: a board over a bus.
ghost use Rattle.std.specs.Prelude.{◌≡◌, ℕ, ◌≤◌, length, refl};
ghost use Rattle.datasheet.specs.Machines.{left_by};
ghost use Rattle.board_model.specs.Images.{most};
ghost use Rattle.board_model.specs.Results.{fence_result, read_result, read_into, write_result, if_accepted, written};
ghost use Rattle.spi_driver.specs.Drives.{density_by, identity_of, probed, calm, after_write};
ghost use Rattle.spi_driver.specs.Sessions.{SentByTable, probing, surveying, read_calls, write_calls};

use crate::session::{read_cells, write_cells};
use crate::survey::{probe, survey};
use board::{Board, ReadBoard, check_range};
use datasheet::Refusal;
use spi_bus::SpiBus;

/// A board over a bus: the cells of the chip behind it, the protected ones fenced; no cells where the ID is not known. Made, and
/// anew in each call, it ends any session, wakes the chip, sets its latch to 0 and reads its ID. Between its calls no session is
/// open, the chip is awake and its latch is 0.
#[derive(Drop)]
pub struct Driver<B: SpiBus> {
    bus: B,
    ghost at_rest: { calm (B.meaning bus) ≡ B.meaning bus },
}

impl<B: SpiBus> Driver<B> {
    /// A driver over this bus.
    pub fn new(bus: B) -> Driver<B>
        ensures bus { B.meaning result.bus ≡ calm (B.meaning bus) }
        ensures exchanged { B.trace result.bus ≡
            left_by B.traced (B.trace bus) probing }
        ensures lent { B.lent result.bus ≡ B.lent bus }
        ensures op_codes { SentByTable }
    {
        let mut bus = bus;
        let _ = probe(&mut bus);
        Driver { bus }
    }

    /// The probe question: the density d of the chip, from 1 to 5, or the refusal `UnknownId` where its ID is not known.
    pub fn probe(&mut self) -> Result<u8, Refusal>
        ensures answer { result ≡ probed (B.meaning self.old.bus) }
        ensures by_id { result ≡ density_by (identity_of (B.meaning self.old.bus)) }
        ensures bus { B.meaning self.new.bus ≡ B.meaning self.old.bus }
        ensures exchanged { B.trace self.new.bus ≡
            left_by B.traced (B.trace self.old.bus) probing }
        ensures lent { B.lent self.new.bus ≡ B.lent self.old.bus }
    {
        probe(&mut self.bus)
    }
}

// Each call says how it leaves the bus (`bus`).
impl<B: SpiBus> ReadBoard for Driver<B> {
    ghost use Rattle.spi_driver.specs.Views.{driver_image, driver_lent, driver_beneath};
    ghost use Rattle.spi_driver.specs.Beneath.{DriverBeneath, driver_shows, driver_put, driver_byte_at};
    ghost use Rattle.spi_driver.specs.Standing.{driver_few, driver_standing};

    ghost image = { λ s. driver_image B.meaning s };

    ghost few = { λ s. driver_few (B.meaning s.bus) (B.sound s.bus) };

    ghost Lent = { ℕ × B.Lent };

    ghost lent = { λ s. driver_lent B.meaning B.lent s };

    ghost Beneath = { DriverBeneath B.Lent };

    ghost beneath = { λ s. driver_beneath B.meaning B.lent s };

    ghost shows = { driver_shows };

    ghost shown = { λ s. refl };

    ghost put = { driver_put };

    ghost Place = { ℕ };

    ghost byte_at = { driver_byte_at };

    ghost stands = { λ _ cell. cell };

    ghost standing = { driver_standing };

    fn size(&mut self) -> usize
        ensures answer { result ≡ length (driver_image B.meaning self.old) }
        ensures few { result ≤ most }
        ensures same { driver_image B.meaning self.new ≡ driver_image B.meaning self.old }
        ensures beneath { driver_beneath B.meaning B.lent self.new ≡
            driver_beneath B.meaning B.lent self.old }
        ensures lent { driver_lent B.meaning B.lent self.new ≡
            driver_lent B.meaning B.lent self.old }
        ensures bus { B.meaning self.new.bus ≡ B.meaning self.old.bus }
        ensures exchanged { B.trace self.new.bus ≡
            left_by B.traced (B.trace self.old.bus) (surveying (B.meaning self.old.bus)) }
    {
        survey(&mut self.bus).size
    }

    fn read(&mut self, start: usize, buffer: &mut [u8]) -> Result<(), Refusal>
        ensures answer { result ≡
            read_result (driver_image B.meaning self.old) start (length buffer.old) }
        ensures filled { buffer.new ≡ read_into (driver_image B.meaning self.old) start buffer.old }
        ensures same { driver_image B.meaning self.new ≡ driver_image B.meaning self.old }
        ensures beneath { driver_beneath B.meaning B.lent self.new ≡
            driver_beneath B.meaning B.lent self.old }
        ensures lent { driver_lent B.meaning B.lent self.new ≡
            driver_lent B.meaning B.lent self.old }
        ensures bus { B.meaning self.new.bus ≡ B.meaning self.old.bus }
        ensures exchanged { B.trace self.new.bus ≡
            left_by B.traced (B.trace self.old.bus)
            (read_calls (B.meaning self.old.bus) start (length buffer.old)) }
    {
        check_range(start, buffer.len(), survey(&mut self.bus).size)?;
        // no cells may be read of a chip that has none
        if !buffer.is_empty() {
            read_cells(&mut self.bus, start, buffer);
        }
        Ok(())
    }
}

impl<B: SpiBus> Board for Driver<B> {
    ghost use Rattle.spi_driver.specs.Views.{driver_image, driver_lent, driver_beneath};
    ghost use Rattle.spi_driver.specs.Beneath.{driver_put};

    fn first_fence(&mut self, start: usize, count: usize) -> Result<Option<usize>, Refusal>
        ensures answer { result ≡ fence_result (driver_image B.meaning self.old) start count }
        ensures same { driver_image B.meaning self.new ≡ driver_image B.meaning self.old }
        ensures beneath { driver_beneath B.meaning B.lent self.new ≡
            driver_beneath B.meaning B.lent self.old }
        ensures lent { driver_lent B.meaning B.lent self.new ≡
            driver_lent B.meaning B.lent self.old }
        ensures bus { B.meaning self.new.bus ≡ B.meaning self.old.bus }
        ensures exchanged { B.trace self.new.bus ≡
            left_by B.traced (B.trace self.old.bus) (surveying (B.meaning self.old.bus)) }
    {
        let cells = survey(&mut self.bus);
        check_range(start, count, cells.size)?;
        Ok(cells.first_fence(start, count))
    }

    fn write(&mut self, start: usize, bytes: &[u8]) -> Result<(), Refusal>
        ensures answer { result ≡ write_result (driver_image B.meaning self.old) start bytes.now }
        ensures after { driver_image B.meaning self.new ≡
            written (driver_image B.meaning self.old) start bytes.now }
        ensures beneath { driver_beneath B.meaning B.lent self.new ≡
            if_accepted (write_result (driver_image B.meaning self.old) start bytes.now)
            (driver_put (driver_beneath B.meaning B.lent self.old) start bytes.now)
            (driver_beneath B.meaning B.lent self.old) }
        ensures lent { driver_lent B.meaning B.lent self.new ≡
            driver_lent B.meaning B.lent self.old }
        ensures bus { B.meaning self.new.bus ≡
            after_write (B.meaning self.old.bus) start bytes.now }
        ensures exchanged { B.trace self.new.bus ≡
            left_by B.traced (B.trace self.old.bus)
            (write_calls (B.meaning self.old.bus) start bytes.now) }
    {
        let found = survey(&mut self.bus);
        check_range(start, bytes.len(), found.size)?;
        if found.first_fence(start, bytes.len()).is_some() {
            return Err(Refusal::Fenced);
        }
        // no cells may be written of a chip that has none
        if !bytes.is_empty() {
            write_cells(&mut self.bus, start, bytes);
        }
        Ok(())
    }
}
