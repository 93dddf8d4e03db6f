//! Trials of the buses: sessions over the chip stepped by bytes and over lines, and the samples of a line. Tests alone.
#![tactic(auto)]

#[cfg(test)]
mod tests {
    use chip::ParkedChip;
    use datasheet::{Part, Sample, Sheet};
    use spi_bus::{Line, Setting, Way, perform, visit};
    use spi_logger::Logger;
    use spi_model::{BusAnswer, BusCall, BusTurn, Mode};

    /// The chip stepped by bytes, and lines of both modes.
    fn ways() -> [Way; 5] {
        [
            Way::Stepped { wp: true },
            Way::Line(Setting::new(Mode::Mode0, 0, true)),
            Way::Line(Setting::new(Mode::Mode0, 3, true)),
            Way::Line(Setting::new(Mode::Mode3, 0, true)),
            Way::Line(Setting::new(Mode::Mode3, 9, true)),
        ]
    }

    /// What the call in this place was answered.
    fn answer_at(turns: &[BusTurn], place: usize) -> Option<BusAnswer> {
        turns.get(place)?.answer
    }

    /// Makes calls on an MB85RS64VY over this memory, and gives its stored bits back.
    fn visited(way: Way, memory: &mut [u8], turns: &mut [BusTurn]) -> u8 {
        let parked = ParkedChip::new(Sheet::of(Part::Mb85rs64vy, 0, 0x02), 0);
        let (_, stored) = visit(parked, memory, way, turns).into_parts();
        stored
    }

    /// WREN; WRITE of AA BB at 1FFFh; READ of two bytes from 1FFFh on; an exchange outside of any session
    const WRITES: [BusCall; 18] = [
        BusCall::Select,
        BusCall::Exchange(0x06),
        BusCall::Deselect,
        BusCall::Select,
        BusCall::Exchange(0x02),
        BusCall::Exchange(0x1F),
        BusCall::Exchange(0xFF),
        BusCall::Exchange(0xAA),
        BusCall::Exchange(0xBB),
        BusCall::Deselect,
        BusCall::Select,
        BusCall::Exchange(0x03),
        BusCall::Exchange(0x1F),
        BusCall::Exchange(0xFF),
        BusCall::Exchange(0x00),
        BusCall::Exchange(0x00),
        BusCall::Deselect,
        BusCall::Exchange(0x00),
    ];

    #[test]
    fn every_bus_writes_and_reads(rt: HostRuntime) {
        for way in ways() {
            let mut memory = [0; 8192];
            let mut turns = WRITES.map(BusTurn::new);
            assert_eq!(rt; visited(way, &mut memory, &mut turns), 0);
            assert_eq!(rt; answer_at(&turns, 13), Some(BusAnswer::Read(0xFF)));
            assert_eq!(rt; answer_at(&turns, 14), Some(BusAnswer::Read(0xAA)));
            assert_eq!(rt; answer_at(&turns, 15), Some(BusAnswer::Read(0xBB)));
            assert_eq!(rt; answer_at(&turns, 16), Some(BusAnswer::Done));
            assert_eq!(rt; answer_at(&turns, 17), Some(BusAnswer::Read(0xFF)));
            assert_eq!(rt; memory[0x1FFF], 0xAA);
            assert_eq!(rt; memory[0x0000], 0xBB);
            assert_eq!(rt; memory[0x0001], 0x00);
        }
    }

    #[test]
    fn a_blank_chip_answers_ones_over_every_bus(rt: HostRuntime) {
        for way in ways() {
            let mut memory = [0x5A; 3];
            let mut turns = WRITES.map(BusTurn::new);
            assert_eq!(rt; visited(way, &mut memory, &mut turns), 0);
            assert_eq!(rt; answer_at(&turns, 4), Some(BusAnswer::Read(0xFF)));
            assert_eq!(rt; answer_at(&turns, 14), Some(BusAnswer::Read(0xFF)));
            assert_eq!(rt; memory, [0x5A; 3]);
        }
    }

    #[test]
    fn a_line_holds_before_every_bit(rt: HostRuntime) {
        let mut memory = [0; 8192];
        let mut chip = ParkedChip::new(Sheet::of(Part::Mb85rs64vy, 0, 0x02), 0).power(&mut memory);
        let mut buffer = [Sample::deselected(); 12];
        let mut logger = Logger::new(&mut chip, &mut buffer);
        let mut line = Line::new(&mut logger, Setting::new(Mode::Mode0, 2, true));
        let mut lent = &mut line;
        let mut turns = [BusCall::Select, BusCall::Exchange(0x80), BusCall::Deselect].map(
            BusTurn::new,
        );
        perform(&mut lent, &mut turns);
        let bytes = buffer.map(u8::from);
        let _ = chip.power_off().into_parts();
        assert_eq!(rt; answer_at(&turns, 1), Some(BusAnswer::Read(0xFF)));
        assert_eq!(rt;
            bytes,
            [
                0x19, 0x18, 0x0C, 0x0C, 0x1C, 0x1E, 0x1C, 0x08, 0x08, 0x18, 0x1A, 0x18,
            ]
        );
    }
}
