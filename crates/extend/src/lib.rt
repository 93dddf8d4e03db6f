//! One of each thing that may be added: a bus, a layer of boards, a kind of chip, and a stage with refusals of its own. Nothing
//! else rests on this crate.
//!
//! What it promises: each is proved by the same contracts as those that stand in the other crates.
#![tactic(auto)]

mod counted;
mod kind;
mod reading;
mod sealed;

pub use counted::Counted;
pub use kind::fast_sleeper;
pub use reading::{ReadingRefusal, reading_at};
pub use sealed::Sealed;

#[cfg(test)]
mod tests {
    use super::*;
    use board::{Board, Plain, ReadBoard};
    use chip::ParkedChip;
    use datasheet::{Command, Refusal};
    use spi_bus::{SpiBus, SteppedBus};
    use std::test::Fail;

    #[test]
    fn a_bus_that_counts(rt: HostRuntime) -> Result<(), Fail> {
        let sheet = fast_sleeper(0x01, 0x02)?;
        let mut memory = [0; 2048];
        let mut chip = ParkedChip::new(sheet, 0x04).power(&mut memory);
        let mut bus = Counted::new(SteppedBus::new(&mut chip, true));
        bus.select();
        let _ = bus.exchange(0x05);
        let status = bus.exchange(0x00);
        bus.deselect();
        let sent = bus.sent();
        let _ = chip.power_off().into_parts();
        assert_eq!(rt; status, 0x04);
        assert_eq!(rt; sent, 2);
        assert_eq!(rt; sheet.command(0x0B), Some(Command::Fstrd));
        assert_eq!(rt; fast_sleeper(0x00, 0x02), Err(Refusal::NoSheet));
        Ok(())
    }

    #[test]
    fn a_sealed_board_is_read_and_not_written(rt: HostRuntime) {
        let mut memory = [0x27, 0xFF, 0x9C];
        let mut board = Sealed::new(Plain::new(&mut memory));
        assert_eq!(rt; board.size(), 3);
        assert_eq!(rt; board.first_fence(1, 2), Ok(Some(1)));
        assert_eq!(rt; board.write(1, &[0x55]), Err(Refusal::Fenced));
        assert_eq!(rt; board.write(3, &[]), Ok(()));
        assert_eq!(rt; reading_at(&mut board, 0), Ok(0x27));
        assert_eq!(rt; reading_at(&mut board, 1), Err(ReadingRefusal::Unwritten));
        assert_eq!(rt;
            reading_at(&mut board, 3),
            Err(ReadingRefusal::Board(Refusal::OutOfRange))
        );
        assert_eq!(rt; u8::from(ReadingRefusal::Unwritten), 200);
    }
}
