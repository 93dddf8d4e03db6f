//! More C entry points, for tests and measurements: a write and a read through a driver, over either bus, and a read of plain
//! memory.
//!
//! What it promises: what is answered, the lent memory and the buffer are one definition's value of what was passed.
#![tactic(auto)]

ghost use Rattle.std.specs.Prelude.{◌≡◌, true, length};
ghost use Rattle.spi_bus.specs.Ways.{wp_of};
ghost use Rattle.board_model.specs.Results.{read_result, read_into};
ghost use Rattle.board_model.specs.Layers.{plain};
ghost use Rattle.script_reports.specs.Marks.{marks_by};
ghost use Rattle.fram_testbed.specs.Transfers.{number_of, Transfers};
ghost use Rattle.fram_testbed.specs.Ways.{WayBy};

use board::{Plain, ReadBoard};
use datasheet::Refusal;
use script_reports::{marks, park};
use spi_bus::{Setting, Way};
use spi_driver::transfer;
use spi_model::Mode;

/// What a write and the read behind it came to, each as 0 or the number of its refusal.
#[repr(C)]
#[derive(Clone, Copy, Debug, PartialEq, Eq)]
pub struct Transfer {
    /// 0, or the refusal where there is no sheet or the memory does not fit; then nothing was written or read
    pub refusal: u32,
    /// what the write is answered
    pub written: u32,
    /// what the read is answered
    pub read: u32,
    /// the stored status bits 7 to 2 afterwards
    pub stored: u8,
}

/// 0, or the number of the refusal.
fn number_of(outcome: Result<(), Refusal>) -> u32
    ensures { result ≡ number_of outcome }
{
    match outcome {
        Ok(()) => 0,
        Err(refusal) => u32::from(u8::from(refusal)),
    }
}

/// How a chip is reached: at 0 stepped by bytes, at 1 over a line in mode 0, else over a line in mode 3. WP is high.
fn way(code: u8, held: u8) -> Way
    ensures by { WayBy code held result }
    ensures wp { wp_of result ≡ true }
{
    match code {
        0 => Way::Stepped { wp: true },
        1 => Way::Line(Setting::new(Mode::Mode0, held, true)),
        _ => Way::Line(Setting::new(Mode::Mode3, held, true)),
    }
}

/// A write of bytes and a read into a buffer from the same start, through a driver, on a chip just powered over lent memory and
/// left by these samples.
#[unsafe(no_mangle)]
pub extern "C" fn testbed_transfer(
    t: u8,
    f: u8,
    drop: u8,
    sleep: u8,
    fast: u8,
    stored: u8,
    memory: &mut [u8],
    before: &[u8],
    code: u8,
    held: u8,
    start: usize,
    bytes: &[u8],
    buffer: &mut [u8],
) -> Transfer
    ensures { Transfers t f (marks_by drop sleep fast) stored memory.old before.now start bytes.now buffer.old
        (record { transfer = result; memory = memory.new; buffer = buffer.new }) }
{
    match park(t, f, marks(drop, sleep, fast), stored, memory) {
        Ok(parked) => {
            let (parked, outcome) = transfer(
                parked,
                memory,
                before,
                way(code, held),
                start,
                bytes,
                buffer,
            );
            let (_, stored) = parked.into_parts();
            Transfer {
                refusal: 0,
                written: number_of(outcome.written),
                read: number_of(outcome.read),
                stored,
            }
        }
        Err(refusal) => Transfer {
            refusal: u32::from(u8::from(refusal)),
            written: 0,
            read: 0,
            stored: stored - stored % 4,
        },
    }
}

/// A read of plain memory into a buffer: 0, or the number of its refusal.
#[unsafe(no_mangle)]
pub extern "C" fn testbed_read_plain(memory: &mut [u8], start: usize, buffer: &mut [u8]) -> u32
    ensures answer { result ≡ number_of (read_result (plain memory.old) start (length buffer.old)) }
    ensures filled { buffer.new ≡ read_into (plain memory.old) start buffer.old }
    ensures memory { memory.new ≡ memory.old }
{
    let mut board = Plain::new(memory);
    number_of(board.read(start, buffer))
}
