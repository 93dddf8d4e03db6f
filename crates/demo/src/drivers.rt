// Chips behind drivers as boards: joined, shielded, and compared with plain memory.
use crate::{Chips, Refused, print_bytes, tell_call, tell_same_boards};
use board::{Board, ReadBoard};
use board_equality::compare;
use board_join::Join;
use board_model::Range;
use board_shield::Shield;
use board_window::Window;
use chip::{Chip, ParkedChip};
use datasheet::{Part, Refusal, Sample, Sheet};
use spi_bus::{Line, Setting, SpiBus, SteppedBus};
use spi_driver::Driver;
use spi_logger::Logger;
use spi_model::Mode;
use std::io;

/// Prints what a driver finds of its chip.
fn tell_found<B: SpiBus>(rt: &HostRuntime, what: &str, driver: &mut Driver<B>) -> io::Result<()> {
    let size = driver.size();
    match driver.probe() {
        Ok(d) => println!(rt; "  {what}: the probe finds d = {d}, and there are {size} cells"),
        Err(refusal) => {
            let refused = Refused(refusal);
            println!(rt; "  {what}: the probe is {refused}, and there are {size} cells")
        }
    }
}

/// Writes bytes to a board and prints what was sent and whether it was accepted.
fn tell_write<B: Board>(
    rt: &HostRuntime,
    board: &mut B,
    start: usize,
    bytes: &[u8],
) -> io::Result<()> {
    print!(rt; "  write at {start}:")?;
    print_bytes(rt, bytes)?;
    match board.write(start, bytes) {
        Ok(()) => println!(rt; ", accepted"),
        Err(refusal) => {
            let refused = Refused(refusal);
            println!(rt; ", {refused}")
        }
    }
}

/// Reads six cells of a board and prints them.
fn tell_read<B: ReadBoard>(rt: &HostRuntime, board: &mut B, start: usize) -> io::Result<()> {
    let mut bytes = [0; 6];
    match board.read(start, &mut bytes) {
        Ok(()) => {
            print!(rt; "  read at {start}:")?;
            print_bytes(rt, &bytes)?;
            println!(rt; "")
        }
        Err(refusal) => {
            let refused = Refused(refusal);
            println!(rt; "  read at {start}: {refused}")
        }
    }
}

/// Fences two cells of a pile by its shield.
fn fence<B: Board>(rt: &HostRuntime, pile: &mut Shield<B>) -> io::Result<()> {
    let cells = Range {
        start: 14330,
        count: 2,
    };
    tell_call(rt, "range from 14330 of 2", pile.add(cells))
}

/// A pile over two drivers is written across its seam and at its fences, and read back.
fn tell_calls<B: Board>(rt: &HostRuntime, pile: &mut B) -> io::Result<()> {
    tell_write(rt, pile, 8190, &[0x27, 0x94, 0x27, 0x9C])?;
    tell_write(rt, pile, 14328, &[0x27, 0xBB])?;
    tell_write(rt, pile, 14329, &[0x27, 0xE1])?;
    tell_write(rt, pile, 14335, &[0x27, 0xE1])?;
    tell_read(rt, pile, 8189)?;
    tell_read(rt, pile, 14327)
}

/// Compares two piles through windows of them, of 12 cells on both sides of the edge of the protected quarter; then one byte of
/// one is written, and the same byte of the other.
fn tell_likeness<P: Board, Q: Board>(
    rt: &HostRuntime,
    chips: Chips<'_, '_>,
    left: &mut P,
    right: &mut Q,
) -> io::Result<()> {
    println!(rt; "The piles are compared through windows of 12 cells from 14328 on.")?;
    let mut left = Window::new(left, 14328, 12);
    let mut right = Window::new(right, 14328, 12);
    tell_same_boards(
        rt,
        compare(chips.first, chips.second, &mut left, &mut right),
    )?;
    println!(rt; "One byte of the second is written, and then the same byte of the first.")?;
    tell_write(rt, &mut right, 0, &[0x01])?;
    tell_same_boards(
        rt,
        compare(chips.first, chips.second, &mut left, &mut right),
    )?;
    tell_write(rt, &mut left, 0, &[0x01])?;
    tell_same_boards(
        rt,
        compare(chips.first, chips.second, &mut left, &mut right),
    )
}

/// Two piles: a shield over a join of two drivers each.
fn tell_piles<P: SpiBus, Q: SpiBus, R: SpiBus, S: SpiBus>(
    rt: &HostRuntime,
    chips: Chips<'_, '_>,
    lower: &mut Driver<P>,
    upper: &mut Driver<Q>,
    other_lower: &mut Driver<R>,
    other_upper: &mut Driver<S>,
) -> io::Result<()> {
    println!(rt; "The two are joined, and a shield over the join fences cells 14330 and 14331.")?;
    let mut left = Shield::new(Join::new(lower, upper));
    let mut right = Shield::new(Join::new(other_lower, other_upper));
    fence(rt, &mut left)?;
    println!(rt;
        "Writes across the seam at 8192, across the edge of the range, and across that of the protected quarter at 14336."
    )?;
    tell_calls(rt, &mut left)?;
    println!(rt; "A second pile, with the buses the other way round, gets the same calls.")?;
    fence(rt, &mut right)?;
    tell_calls(rt, &mut right)?;
    tell_likeness(rt, chips, &mut left, &mut right)
}

/// A driver over each of four buses, two for a pile.
fn tell_boards<P: SpiBus, Q: SpiBus, R: SpiBus, S: SpiBus>(
    rt: &HostRuntime,
    chips: Chips<'_, '_>,
    first: &mut P,
    second: &mut Q,
    third: &mut R,
    fourth: &mut S,
) -> io::Result<()> {
    let mut lower = Driver::new(first);
    let mut upper = Driver::new(second);
    let mut other_lower = Driver::new(third);
    let mut other_upper = Driver::new(fourth);
    tell_found(rt, "the first ", &mut lower)?;
    tell_found(rt, "the second", &mut upper)?;
    tell_piles(
        rt,
        chips,
        &mut lower,
        &mut upper,
        &mut other_lower,
        &mut other_upper,
    )
}

/// Of the first two chips one is reached over a line and one is stepped by bytes; of the other two the other way round, and the
/// line is clocked in another way.
fn tell_chips(
    rt: &HostRuntime,
    chips: Chips<'_, '_>,
    first: &mut Chip<'_>,
    second: &mut Chip<'_>,
    third: &mut Chip<'_>,
    fourth: &mut Chip<'_>,
) -> io::Result<()> {
    let mut held_line = Line::new(first, Setting::new(Mode::Mode3, 1, true));
    let mut bytes = SteppedBus::new(second, true);
    let mut other_bytes = SteppedBus::new(third, true);
    let mut plain_line = Line::new(fourth, Setting::new(Mode::Mode0, 0, true));
    tell_boards(
        rt,
        chips,
        &mut held_line,
        &mut bytes,
        &mut other_bytes,
        &mut plain_line,
    )
}

/// The samples, in mode 0 with no held samples, of a line that is made, a driver that is made, and a write of one byte.
const MOST_LOGGED: usize = 341;

/// Writes a byte through a driver.
fn write_byte<B: SpiBus>(bus: &mut B) -> Result<(), Refusal> {
    Driver::new(bus).write(0x0102, &[0xC3])
}

/// Writes a byte through a driver over a line, and prints all samples, those of a session in a line.
fn tell_samples(rt: &HostRuntime, chip: &mut Chip<'_>) -> io::Result<()> {
    println!(rt;
        "A driver over a line in mode 0 is made and writes C3 into cell 0102h: its samples, a line for each session."
    )?;
    let mut buffer = [Sample::deselected(); MOST_LOGGED];
    let mut logger = Logger::new(chip, &mut buffer);
    let mut line = Line::new(&mut logger, Setting::new(Mode::Mode0, 0, true));
    tell_call(rt, "the write", write_byte(&mut line))?;
    for sample in logger.logged() {
        let byte = u8::from(*sample);
        print!(rt; " {byte:02X}")?;
        if sample.cs {
            println!(rt; "")?;
        }
    }
    Ok(())
}

/// Four chips as boards, two in a pile.
pub(crate) fn tell_drivers(rt: &HostRuntime, chips: Chips<'_, '_>) -> io::Result<()> {
    println!(rt;
        "Two chips more, each behind a driver: the first over a line in mode 3 with one held sample before a bit, the second, its upper quarter protected, over a bus that steps it by bytes."
    )?;
    let sheet = Sheet::of(Part::Mb85rs64vy, 0x00, 0x02);
    let mut lower = [0; 8192];
    let mut upper = [0; 8192];
    let mut other_lower = [0; 8192];
    let mut other_upper = [0; 8192];
    let mut first = ParkedChip::new(sheet, 0x00).power(&mut lower);
    let mut second = ParkedChip::new(sheet, 0x04).power(&mut upper);
    let mut third = ParkedChip::new(sheet, 0x00).power(&mut other_lower);
    let mut fourth = ParkedChip::new(sheet, 0x04).power(&mut other_upper);
    let told = tell_chips(rt, chips, &mut first, &mut second, &mut third, &mut fourth);
    let samples = tell_samples(rt, &mut first);
    let _ = first.power_off().into_parts();
    let _ = second.power_off().into_parts();
    let _ = third.power_off().into_parts();
    let _ = fourth.power_off().into_parts();
    told?;
    samples
}
