//! The snippets of README.md and docs/LIBRARY.md, each in a test that it does what its comments say. Tests alone; `checks/snippets`
//! compares the pages with them, line by line.
#![tactic(auto)]

#[cfg(test)]
mod tests {
    // the names of the snippets
    use board::{Board, Dump, Plain, ReadBoard};
    use board_join::Join;
    use board_model::Range;
    use board_shield::Shield;
    use board_window::Window;
    use chip::ParkedChip;
    use datasheet::{Part, Refusal, Sheet};
    use spi_bus::{Line, Setting, SpiBus, SteppedBus};
    use spi_driver::Driver;
    use spi_model::Mode;
    // and of the assertions
    use datasheet::{Level, Sample};
    use spi_logger::Logger;

    #[test]
    fn a_sample_is_put_to_a_chip(rt: HostRuntime) {
        let mut memory = [0x5A; 8192];

        let sheet = Sheet::of(Part::Mb85rs64vy, 0x00, 0x02);
        let mut chip = ParkedChip::new(sheet, 0).power(&mut memory);
        let so = chip.sample(0x18); // Ok(Level::HighZ): CS falls, and a session begins
        let parked = chip.power_off(); // memory is yours again

        memory[0] = 0x27;
        let (kept, stored) = parked.into_parts();
        assert_eq!(rt; so, Ok(Level::HighZ));
        assert_eq!(rt; Sample::try_from(0x18), Ok(Sample::selected()));
        assert_eq!(rt; memory[0], 0x27);
        assert!(rt; memory.iter().skip(1).all(|byte| *byte == 0x5A));
        assert_eq!(rt; kept, sheet);
        assert_eq!(rt; stored, 0);
    }

    /// A parked MB85RS64VY.
    fn parked(stored: u8) -> ParkedChip {
        ParkedChip::new(Sheet::of(Part::Mb85rs64vy, 0x00, 0x02), stored)
    }

    fn read_status<B: SpiBus>(bus: &mut B) -> u8 {
        bus.select();
        let _ = bus.exchange(0x05); // RDSR
        let status = bus.exchange(0x00);
        bus.deselect();
        status
    }

    /// In mode 3 SCK rests high. Each of the sixteen bits of the session has two samples with HOLD low before it.
    #[test]
    fn the_status_is_read_over_both_buses(rt: HostRuntime) {
        let mut memory = [0; 8192];
        let mut chip = parked(0x8C).power(&mut memory);

        let stepped = read_status(&mut SteppedBus::new(&mut chip, true)); // WP high
        let held = Setting::new(Mode::Mode3, 2, true); // two held samples before every bit, WP high
        let clocked = read_status(&mut Line::new(&mut chip, held)); // the same byte

        let mut buffer = [Sample::deselected(); 128];
        let mut logger = Logger::new(&mut chip, &mut buffer);
        let logged = read_status(&mut Line::new(&mut logger, held));
        let samples = logger.logged();
        let rests_high = samples
            .first()
            .is_some_and(|sample| sample.cs && sample.sck);
        let wp_high = samples.iter().all(|sample| sample.wp);
        let holds = samples.iter().filter(|sample| !sample.hold).count();
        let _ = chip.power_off().into_parts();
        assert_eq!(rt; stepped, 0x8C);
        assert_eq!(rt; clocked, 0x8C);
        assert_eq!(rt; logged, 0x8C);
        assert!(rt; rests_high);
        assert!(rt; wp_high);
        assert_eq!(rt; holds, 2 * 16);
    }

    fn store<B: SpiBus>(bus: &mut B) -> Result<u8, Refusal> {
        let mut driver = Driver::new(bus);
        let density = driver.probe()?; // 3 for an MB85RS64VY; refused by 6 where the ID is not known
        driver.write(0x0100, &[0x27, 0x9C])?; // WREN, WRITE, WRDI; refused by 5 at a protected cell
        Ok(density)
    }

    /// What `store` answers on an MB85RS64VY over this memory, with these stored bits.
    fn stored(memory: &mut [u8], status: u8) -> Result<u8, Refusal> {
        let mut chip = parked(status).power(memory);
        let answer = store(&mut SteppedBus::new(&mut chip, true));
        let _ = chip.power_off().into_parts();
        answer
    }

    /// The op-codes of the last three sessions that have one.
    fn last_op_codes(samples: &[Sample]) -> [u8; 3] {
        let mut last = [0; 3];
        let mut code = 0u8;
        let mut bits = 0u8;
        for (before, sample) in samples.iter().zip(samples.iter().skip(1)) {
            if sample.cs {
                code = 0;
                bits = 0;
            } else if sample.sck && !before.sck && bits < 8 {
                code = code % 128 * 2 + u8::from(sample.si);
                bits += 1;
                if bits == 8 {
                    last = [last[1], last[2], code];
                }
            }
        }
        last
    }

    #[test]
    fn a_driver_stores_two_bytes(rt: HostRuntime) {
        let mut memory = [0; 8192];
        assert_eq!(rt; stored(&mut memory, 0x00), Ok(3));
        assert_eq!(rt; memory[0x0100], 0x27);
        assert_eq!(rt; memory[0x0101], 0x9C);
        assert_eq!(rt; memory[0x0102], 0x00);
        let mut protected = [0; 8192];
        assert_eq!(rt; stored(&mut protected, 0x0C), Err(Refusal::Fenced));
        assert_eq!(rt; u8::from(Refusal::Fenced), 5);
        assert!(rt; protected.iter().all(|byte| *byte == 0));
        let mut short = [0; 16];
        assert_eq!(rt; stored(&mut short, 0x00), Err(Refusal::UnknownId));
        assert_eq!(rt; u8::from(Refusal::UnknownId), 6);
    }

    #[test]
    fn a_driver_sends_three_op_codes_for_a_write(rt: HostRuntime) {
        let mut memory = [0; 8192];
        let mut chip = parked(0).power(&mut memory);
        let mut buffer = [Sample::deselected(); 900];
        let mut logger = Logger::new(&mut chip, &mut buffer);
        let answer = store(&mut Line::new(&mut logger, Setting::new(Mode::Mode0, 0, true)));
        let samples = logger.logged();
        let fits = samples.len() < 900;
        let sent = last_op_codes(samples);
        let _ = chip.power_off().into_parts();
        assert_eq!(rt; answer, Ok(3));
        assert!(rt; fits);
        assert_eq!(rt; sent, [0x06, 0x02, 0x04]);
    }

    #[test]
    fn a_pile_refuses_a_write_at_a_fence(rt: HostRuntime) {
        let mut lower = [0x11; 16];
        let mut upper = [0x22; 16];

        let window = Window::new(Plain::new(&mut lower), 4, 8);
        let mut board = Shield::new(Join::new(window, Plain::new(&mut upper)));
        let added = board.add(Range { start: 6, count: 2 }); // Ok(()): fences cells 6 and 7
        let fence = board.first_fence(0, 24); // Ok(Some(6))
        let wrote = board.write(5, &[0x27, 0x9C]); // Err(Refusal::Fenced), and nothing changes

        let behind = board.first_fence(7, 17);
        let after = board.first_fence(8, 16);
        let size = board.size();
        assert_eq!(rt; added, Ok(()));
        assert_eq!(rt; fence, Ok(Some(6)));
        assert_eq!(rt; wrote, Err(Refusal::Fenced));
        assert_eq!(rt; behind, Ok(Some(7)));
        assert_eq!(rt; after, Ok(None));
        assert_eq!(rt; size, 24);
        assert_eq!(rt; lower, [0x11; 16]);
        assert_eq!(rt; upper, [0x22; 16]);
    }

    #[test]
    fn a_pile_of_dumps_is_read(rt: HostRuntime) {
        let front = [0, 1, 2, 3, 4, 5, 6, 7, 8, 9, 10, 11, 12, 13, 14, 15];
        let back = [16, 17, 18, 19, 20, 21, 22, 23];

        let window = Window::new(Dump::new(&front), 4, 8);
        let mut dump = Join::new(window, Dump::new(&back));
        let size = dump.size(); // 16: cells 4 to 11 of the first dump, then those of the second
        let mut bytes = [0; 4];
        let read = dump.read(6, &mut bytes); // Ok(()): two bytes of each

        let mut beyond = [0x5A; 2];
        let refused = dump.read(15, &mut beyond);
        assert_eq!(rt; size, 16);
        assert_eq!(rt; read, Ok(()));
        assert_eq!(rt; bytes, [10, 11, 16, 17]);
        assert_eq!(rt; refused, Err(Refusal::OutOfRange));
        assert_eq!(rt; beyond, [0x5A; 2]);
    }
}
