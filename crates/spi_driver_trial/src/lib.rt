//! Trials of the driver: over the chip stepped by bytes and over lines, on a blank chip, on a chip that is not at rest, and the
//! samples that its calls put. Tests alone.
#![tactic(auto)]

#[cfg(test)]
mod tests {
    use board::{Board, ReadBoard};
    use chip::{Chip, ParkedChip, Pins, Stepped};
    use datasheet::{Part, Refusal, Sample, Sheet};
    use spi_bus::{Line, Setting, SpiBus, SteppedBus, Way};
    use spi_driver::Driver;
    use spi_logger::Logger;
    use spi_model::Mode;

    /// The chip stepped by bytes, and lines of both modes.
    fn ways() -> [Way; 5] {
        [
            Way::Stepped { wp: true },
            Way::Line(Setting::new(Mode::Mode0, 0, true)),
            Way::Line(Setting::new(Mode::Mode0, 3, true)),
            Way::Line(Setting::new(Mode::Mode3, 0, true)),
            Way::Line(Setting::new(Mode::Mode3, 3, true)),
        ]
    }

    /// A parked MB85RS64VY.
    fn parked(stored: u8) -> ParkedChip {
        ParkedChip::new(Sheet::of(Part::Mb85rs64vy, 0, 0x02), stored)
    }

    /// What a driver answers: to a probe and a size; to a fence question about all of its cells; to writes of two bytes below cell
    /// 1800h, over it, and past cell 1FFFh; to a read of the three cells before 1800h, with the bytes that it found there.
    #[derive(Clone, Copy, Debug, PartialEq, Eq)]
    struct Told {
        density: Result<u8, Refusal>,
        size: usize,
        fence: Result<Option<usize>, Refusal>,
        below: Result<(), Refusal>,
        over: Result<(), Refusal>,
        past: Result<(), Refusal>,
        read: Result<(), Refusal>,
        seen: [u8; 3],
    }

    fn tell<B: SpiBus + Drop>(bus: B) -> Told {
        let mut driver = Driver::new(bus);
        let density = driver.probe();
        let size = driver.size();
        let fence = driver.first_fence(0, size);
        let below = driver.write(0x17FE, &[0xA1, 0xA2]);
        let over = driver.write(0x17FF, &[0xA3, 0xA4]);
        let past = driver.write(0x1FFF, &[0xA5, 0xA6]);
        let mut seen = [0x77; 3];
        let read = driver.read(0x17FD, &mut seen);
        Told {
            density,
            size,
            fence,
            below,
            over,
            past,
            read,
            seen,
        }
    }

    fn tell_over<C: Stepped + Drop>(chip: C, way: Way) -> Told {
        match way {
            Way::Stepped { wp } => tell(SteppedBus::new(chip, wp)),
            Way::Line(setting) => tell(Line::new(chip, setting)),
        }
    }

    #[test]
    fn a_chip_with_its_upper_quarter_protected(rt: HostRuntime) {
        for way in ways() {
            let mut memory = [0x11; 8192];
            let mut chip = parked(0x04).power(&mut memory);
            let told = tell_over(&mut chip, way);
            let (_, stored) = chip.power_off().into_parts();
            assert_eq!(rt; told.density, Ok(3));
            assert_eq!(rt; told.size, 8192);
            assert_eq!(rt; told.fence, Ok(Some(0x1800)));
            assert_eq!(rt; told.below, Ok(()));
            assert_eq!(rt; told.over, Err(Refusal::Fenced));
            assert_eq!(rt; told.past, Err(Refusal::OutOfRange));
            assert_eq!(rt; told.read, Ok(()));
            assert_eq!(rt; told.seen, [0x11, 0xA1, 0xA2]);
            assert_eq!(rt; stored, 0x04);
            assert_eq!(rt; memory[0x17FD], 0x11);
            assert_eq!(rt; memory[0x17FE], 0xA1);
            assert_eq!(rt; memory[0x17FF], 0xA2);
            assert_eq!(rt; memory[0x1800], 0x11);
            assert_eq!(rt; memory[0x1FFF], 0x11);
        }
    }

    #[test]
    fn a_blank_chip_has_no_cells(rt: HostRuntime) {
        for way in ways() {
            let mut memory = [0x5A; 3];
            let mut chip = parked(0).power(&mut memory);
            let told = tell_over(&mut chip, way);
            let unknown = Driver::new(SteppedBus::new(&mut chip, true)).probe();
            let _ = chip.power_off().into_parts();
            assert_eq!(rt; unknown, Err(Refusal::UnknownId));
            assert_eq!(rt; told.density, Err(Refusal::UnknownId));
            assert_eq!(rt; told.size, 0);
            assert_eq!(rt; told.fence, Ok(None));
            assert_eq!(rt; told.below, Err(Refusal::OutOfRange));
            assert_eq!(rt; told.read, Err(Refusal::OutOfRange));
            assert_eq!(rt; told.seen, [0x77; 3]);
            assert_eq!(rt; memory, [0x5A; 3]);
        }
    }

    /// The status byte, read in the next session.
    fn status(chip: &mut Chip<'_>) -> u8 {
        let mut bus = SteppedBus::new(chip, true);
        bus.select();
        let _ = bus.exchange(0x05);
        let read = bus.exchange(0x00);
        bus.deselect();
        read
    }

    /// Makes a driver.
    fn settle<B: SpiBus>(bus: &mut B) {
        let _ = Driver::new(bus);
    }

    #[test]
    fn making_ends_a_session_and_clears_the_latch(rt: HostRuntime) {
        let mut memory = [0; 8192];
        let mut chip = parked(0x04).power(&mut memory);
        let mut line = Line::new(&mut chip, Setting::new(Mode::Mode3, 3, true));
        line.select();
        let _ = line.exchange(0x06);
        settle(&mut line);
        let after_session = status(&mut chip);
        // CS falls, and eight bits of WREN are clocked; then SCK stays high
        let mut bus = SteppedBus::new(&mut chip, true);
        bus.select();
        let _ = bus.exchange(0x06);
        let _ = chip.put(Sample {
            sck: true,
            ..Sample::selected()
        });
        settle(&mut Line::new(&mut chip, Setting::new(Mode::Mode0, 0, true)));
        let after_samples = status(&mut chip);
        let _ = chip.power_off().into_parts();
        assert_eq!(rt; after_session, 0x04);
        assert_eq!(rt; after_samples, 0x04);
    }

    #[test]
    fn making_wakes_the_chip(rt: HostRuntime) {
        let mut memory = [0; 8192];
        let mut chip = parked(0x04).power(&mut memory);
        let mut bus = SteppedBus::new(&mut chip, true);
        bus.select();
        let _ = bus.exchange(0xB9);
        bus.deselect();
        settle(&mut bus);
        let awake = status(&mut chip);
        let _ = chip.power_off().into_parts();
        assert_eq!(rt; awake, 0x04);
    }

    /// How many sessions the samples begin, behind the first sample.
    fn sessions(samples: &[Sample]) -> usize {
        samples
            .iter()
            .zip(samples.iter().skip(1))
            .filter(|(last, next)| last.cs && !next.cs)
            .count()
    }

    /// Makes a driver, writes three bytes, reads them back, and writes and reads no cells.
    fn write_and_read<B: SpiBus>(bus: &mut B) -> ([Result<(), Refusal>; 4], [u8; 3]) {
        let mut driver = Driver::new(bus);
        let mut seen = [0; 3];
        let wrote = driver.write(0x0102, &[0xC3, 0xC4, 0xC5]);
        let read = driver.read(0x0102, &mut seen);
        let wrote_none = driver.write(8192, &[]);
        let read_none = driver.read(8192, &mut []);
        ([wrote, read, wrote_none, read_none], seen)
    }

    /// A line that is made puts one sample. A driver that is made puts the sessions of no byte, of WRDI and of RDID, with two
    /// samples each besides the sixteen of a byte, and each call puts those again and the session of RDSR. A write of three bytes
    /// puts besides one session each of WREN, WRITE and WRDI, and a read one of READ; where there are no cells, none.
    #[test]
    fn one_session_for_a_write_and_one_for_a_read(rt: HostRuntime) {
        let mut memory = [0; 8192];
        let mut chip = parked(0).power(&mut memory);
        let mut buffer = [Sample::deselected(); 900];
        let mut logger = Logger::new(&mut chip, &mut buffer);
        let mut line = Line::new(&mut logger, Setting::new(Mode::Mode0, 0, true));
        let (answers, seen) = write_and_read(&mut line);
        let logged = logger.logged();
        let count = logged.len();
        let begun = sessions(logged);
        let first = logged.first().is_some_and(|sample| sample.cs);
        let last = logged.last().is_some_and(|sample| sample.cs);
        let _ = chip.power_off().into_parts();
        assert_eq!(rt; answers, [Ok(()); 4]);
        assert_eq!(rt; seen, [0xC3, 0xC4, 0xC5]);
        assert_eq!(rt; count, 1 + 102 + 270 + 234 + 136 + 136);
        assert_eq!(rt; begun, 3 + 7 + 5 + 4 + 4);
        assert!(rt; first);
        assert!(rt; last);
        assert_eq!(rt; memory[0x0102], 0xC3);
        assert_eq!(rt; memory[0x0104], 0xC5);
    }
}
