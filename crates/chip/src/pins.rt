// What takes samples, and what can be stepped by bytes besides.
ghost use Rattle.std.specs.Prelude.{◌≡◌};
ghost use Rattle.datasheet.specs.declared.registers.Registers.{Registers};
ghost use Rattle.datasheet.specs.declared.sample.Sample.{Sample};
ghost use Rattle.datasheet.specs.Calls.{ChipState, so, put};
ghost use Rattle.datasheet.specs.Kept.{bounded};
ghost use Rattle.spi_model.specs.SteppedChips.{stepped_by, step_read};
ghost use Rattle.std.specs.Borrow.{GName};
ghost use Rattle.datasheet.specs.Memory.{SoundMemory};
ghost use Rattle.chip.specs.Sound.{sound};
ghost use Rattle.chip.specs.Views.{chip_of};

use crate::chip::Chip;
use datasheet::{Level, Sample};

/// What takes samples: a chip, or whatever a chip is wired to.
pub trait Pins {
    // The chip behind the pins.
    ghost chip: { Self → ChipState Registers };

    // Its memory holds bytes, and it is fitted exactly if these are as many as its sheet says.
    ghost sound: { (s : Self) → SoundMemory (chip s).sheet (chip s).fitted (chip s).rec.memory };

    // What is kept of the samples that were put, whatever that is, and what one more makes of it.
    ghost Trace: { Type 0 };

    ghost trace: { Self → Trace };

    ghost traced: { Trace → Sample → Trace };

    // The references through which the chip is reached: no call puts another in the place of one.
    ghost Lent: { Type 0 };

    ghost lent: { Self → Lent };

    /// Puts a sample, and answers what SO shows then.
    fn put(&mut self, sample: Sample) -> Level
        ensures shows { result ≡ so (put bounded (chip self.old) sample) }
        ensures state { chip self.new ≡ put bounded (chip self.old) sample }
        ensures traced { trace self.new ≡ traced (trace self.old) sample }
        ensures lent { lent self.new ≡ lent self.old };
}

/// What can be stepped by bytes: a byte at once, with no pin moved.
pub trait Stepped: Pins {
    /// In a session of whole bytes that runs, SCK low, takes a byte and answers the byte that is read: the chip is left as by
    /// the rises and falls of that byte. Otherwise nothing happens, and FFh is read.
    fn step(&mut self, wp: bool, byte: u8) -> u8
        ensures read { result ≡ step_read (Self.Pins.chip self.old) wp byte }
        ensures state { Self.Pins.chip self.new ≡ stepped_by (Self.Pins.chip self.old) wp byte }
        ensures traced { Self.Pins.trace self.new ≡ Self.Pins.trace self.old }
        ensures lent { Self.Pins.lent self.new ≡ Self.Pins.lent self.old };
}

impl Pins for Chip<'_> {
    ghost chip = { chip_of };

    ghost sound = { sound };

    // A chip keeps no list of its samples.
    ghost Trace = { Unit {0} };

    ghost trace = { λ _. tt };

    ghost traced = { λ _ _. tt };

    ghost Lent = { GName };

    ghost lent = { λ s. s.memory.ghost_name };

    fn put(&mut self, sample: Sample) -> Level {
        Chip::put(self, sample)
    }
}

impl Stepped for Chip<'_> {
    #[tactic(auto, using(spi_model::proofs::SteppedChips::once))]
    fn step(&mut self, wp: bool, byte: u8) -> u8 {
        self.step_byte(wp, byte)
    }
}

// Pins that are lent.
impl<P: Pins> Pins for &mut P {
    ghost chip = { λ s. P.chip s.now };

    ghost sound = { λ s. P.sound s.now };

    ghost Trace = { P.Trace };

    ghost trace = { λ s. P.trace s.now };

    ghost traced = { P.traced };

    ghost Lent = { GName × P.Lent };

    ghost lent = { λ s. (s.ghost_name, P.lent s.now) };

    fn put(&mut self, sample: Sample) -> Level {
        (**self).put(sample)
    }
}

impl<P: Stepped> Stepped for &mut P {
    fn step(&mut self, wp: bool, byte: u8) -> u8 {
        (**self).step(wp, byte)
    }
}
