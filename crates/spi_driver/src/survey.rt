// What a driver finds of the chip behind its bus.
ghost use Rattle.std.specs.Prelude.{◌≡◌, ◌+◌, ◌<◌, ◌≤◌, ◌%◌, max, true, ◌&&◌, nat_lt, length, Some, None, IfOk, if◌then◌else◌};
ghost use Rattle.datasheet.specs.declared.sheet.Sheet.{Sheet};
ghost use Rattle.datasheet.specs.Sheets.{cells};
ghost use Rattle.datasheet.specs.Records.{Record};
ghost use Rattle.datasheet.specs.Machines.{left_by};
ghost use Rattle.datasheet.specs.Protection.{first_protected};
ghost use Rattle.spi_driver.specs.Drives.{image_of, density_by, identity_of, probed, calm};
ghost use Rattle.spi_driver.specs.Sessions.{probing, surveying};

use crate::session::{read_identity, read_status, settle};
use datasheet::Refusal;
use spi_bus::SpiBus;

/// The first two bytes of an ID: the code of the maker, and the one which says that more bytes follow.
const FUJITSU: u8 = 0x04;

const CONTINUATION: u8 = 0x7F;

/// What a driver finds, counted in cells.
#[derive(Clone, Copy, Debug, PartialEq, Eq)]
pub(crate) struct Found {
    /// the cells of the chip; 0 where its ID is not known
    pub size: usize,
    /// the cells before the first protected one
    pub free: usize,
}

/// The density d, from 1 to 5, by the bytes that are read with RDID and behind it. Another maker, another second byte and another
/// d are refused as an unknown ID.
fn density(id: [u8; 5]) -> Result<u8, Refusal>
    ensures answer { result ≡ density_by id }
    ensures small { IfOk result (λ d. d ≤ 5) }
{
    match id {
        [_, FUJITSU, CONTINUATION, t, _] if (1..=5).contains(&(t % 32)) => Ok(t % 32),
        _ => Err(Refusal::UnknownId),
    }
}

/// The first protected cell of a chip with so many cells, by BP1 and BP0 of its status byte.
fn first_protected(size: usize, status: u8) -> usize
    ensures { (s : Sheet) (r : Record) → size ≡
        cells s → status ≡ r.stored % 256 → result ≡ first_protected s r }
{
    match status / 4 % 4 {
        0 => size,
        1 => size - size / 4,
        2 => size / 2,
        _ => 0,
    }
}

/// Ends any session, wakes the chip and sets its latch to 0; answers its density, or the refusal where the ID is not known.
pub(crate) fn probe<B: SpiBus>(bus: &mut B) -> Result<u8, Refusal>
    ensures answer { result ≡ probed (B.meaning bus.old) }
    ensures by_id { result ≡ density_by (identity_of (B.meaning bus.old)) }
    ensures small { IfOk result (λ d. d ≤ 5) }
    ensures after { B.meaning bus.new ≡ calm (B.meaning bus.old) }
    ensures traced { B.trace bus.new ≡ left_by B.traced (B.trace bus.old) probing }
    ensures lent { B.lent bus.new ≡ B.lent bus.old }
{
    settle(bus);
    density(read_identity(bus))
}

/// Asks a bus at rest for its chip, with what a probe does to it first; answers what is found. Where the ID is not known there are
/// no cells.
pub(crate) fn survey<B: SpiBus>(bus: &mut B) -> Found
    requires { calm (B.meaning bus.old) ≡ B.meaning bus.old }
    ensures size { result.size ≡ length (image_of (B.meaning bus.old)) }
    ensures few { result.size ≤ 32768 }
    ensures free { (B.meaning bus.old).fitted ≡
        true → result.free ≡ first_protected (B.meaning bus.old).sheet (B.meaning bus.old).rec }
    ensures same { B.meaning bus.new ≡ B.meaning bus.old }
    ensures traced { B.trace bus.new ≡ left_by B.traced (B.trace bus.old) (surveying (B.meaning bus.old)) }
    ensures lent { B.lent bus.new ≡ B.lent bus.old }
{
    match probe(bus) {
        Ok(d) => {
            let size = 1024usize << d;
            let free = first_protected(size, read_status(bus));
            Found { size, free }
        }
        Err(_) => Found { size: 0, free: 0 },
    }
}

impl Found {
    /// The first fenced place among `count` places from `start` on, which lie in the board.
    pub(crate) fn first_fence(self, start: usize, count: usize) -> Option<usize>
        ensures { result ≡
            (if nat_lt 0 count && nat_lt self.free (start + count) then Some (max start self.free) else None) }
    {
        if count > self.free.saturating_sub(start) {
            Some(start.max(self.free))
        } else {
            None
        }
    }
}
