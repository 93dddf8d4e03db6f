// One chip over both buses, and the samples that a line puts.
use chip::Chip;
use datasheet::Sample;
use spi_bus::{Line, Setting, SpiBus, SteppedBus};
use spi_logger::Logger;
use spi_model::Mode;
use std::io;

/// Reads the status register over a bus and prints what was sent and what was read.
fn tell_status<B: SpiBus>(rt: &HostRuntime, what: &str, bus: &mut B) -> io::Result<()> {
    bus.select();
    let first = bus.exchange(0x05);
    let status = bus.exchange(0x00);
    bus.deselect();
    println!(rt; "  {what}: sent 05 00, read {first:02X} {status:02X}")
}

/// The samples of a line that is made and puts a session of one byte: three with CS, and four for each bit where one holds.
const MOST_LOGGED: usize = 35;

/// Puts a WRDI session over a line and prints the samples that it put.
fn tell_samples(
    rt: &HostRuntime,
    chip: &mut Chip<'_>,
    what: &str,
    setting: Setting,
) -> io::Result<()> {
    let mut buffer = [Sample::deselected(); MOST_LOGGED];
    let mut logger = Logger::new(chip, &mut buffer);
    let mut line = Line::new(&mut logger, setting);
    line.select();
    let _ = line.exchange(0x04);
    line.deselect();
    print!(rt; "  {what}:")?;
    for sample in logger.logged() {
        let byte = u8::from(*sample);
        print!(rt; " {byte:02X}")?;
    }
    println!(rt; "")
}

/// The same register over both buses, and what a line does at the pins.
pub(crate) fn tell_buses(rt: &HostRuntime, chip: &mut Chip<'_>) -> io::Result<()> {
    println!(rt;
        "RDSR over a bus that steps the chip by bytes, and over a line in mode 3 that holds before every bit."
    )?;
    tell_status(rt, "bytes", &mut SteppedBus::new(&mut *chip, true))?;
    let held = Setting::new(Mode::Mode3, 2, true);
    tell_status(rt, "line ", &mut Line::new(&mut *chip, held))?;
    println!(rt; "The samples of a line that is made and puts a WRDI session.")?;
    let plain = Setting::new(Mode::Mode0, 0, true);
    tell_samples(rt, &mut *chip, "mode 0, no held samples      ", plain)?;
    let held = Setting::new(Mode::Mode3, 1, true);
    tell_samples(rt, chip, "mode 3, one held before a bit", held)
}
