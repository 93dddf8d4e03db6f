//! Byte buses: what can be selected, exchange bytes and be deselected. A chip stepped by bytes, and a line that moves the pins.
//!
//! What it promises: each call does to what the bus means what the definitions say, whichever bus it is; a line's calls state
//! the list of their samples; and no call changes what a bus was given.
#![tactic(auto)]

ghost use Rattle.std.specs.Prelude.{◌≡◌, true};
ghost use Rattle.datasheet.specs.declared.registers.Registers.{Registers};
ghost use Rattle.datasheet.specs.Kept.{bounded};
ghost use Rattle.datasheet.specs.Memory.{SoundMemory};
ghost use Rattle.spi_model.specs.SteppedBytes.{whole_session};
ghost use Rattle.spi_model.specs.declared.bus_call.BusCall.{BusCall};
ghost use Rattle.spi_model.specs.declared.bus_call.BusCall.TheVariants.{Select, Exchange, Deselect};
ghost use Rattle.spi_model.specs.Buses.{Bus, selected, exchanged, read, deselected};
ghost use Rattle.std.specs.Borrow.{GName};

mod calls;
mod clock;
mod line;
mod reach;
mod setting;
mod stepped;
mod visits;

pub use calls::perform;
pub use line::Line;
pub use reach::{BusWork, Way, work_over, work_over_line};
pub use setting::Setting;
pub use stepped::SteppedBus;
pub use visits::visit;

/// A byte bus over one chip. It means that chip, its session, which always has whole bytes, and a fixed level of WP. Each call answers
/// and leaves what the definitions say of that.
pub trait SpiBus {
    // What it means.
    ghost meaning: { Self → Bus Registers };

    // Its chip's memory holds bytes, and it is fitted exactly if these are as many as its sheet says.
    ghost sound: { (s : Self) → SoundMemory (meaning s).sheet (meaning s).fitted (meaning s).rec.memory };

    // Its session, if one is open, has a whole number of bytes.
    ghost aligned: { (s : Self) → whole_session (meaning s).session ≡ true };

    // What is kept of the calls that were made, whatever that is, and what one more makes of it.
    ghost Trace: { Type 0 };

    ghost trace: { Self → Trace };

    ghost traced: { Trace → BusCall → Trace };

    // The references through which its chip is reached: no call puts another in the place of one.
    ghost Lent: { Type 0 };

    ghost lent: { Self → Lent };

    /// Begins a session if none is open.
    fn select(&mut self)
        ensures after { meaning self.new ≡ selected bounded (meaning self.old) }
        ensures traced { trace self.new ≡ traced (trace self.old) Select }
        ensures lent { lent self.new ≡ lent self.old };

    /// Sends the eight bits of a byte, the highest first, and answers the byte that is read meanwhile. With no open session it answers
    /// FFh and changes nothing; from a blank chip it is FFh too.
    fn exchange(&mut self, byte: u8) -> u8
        ensures read { result ≡ read bounded (meaning self.old) byte }
        ensures after { meaning self.new ≡ exchanged bounded (meaning self.old) byte }
        ensures traced { trace self.new ≡ traced (trace self.old) (Exchange byte) }
        ensures lent { lent self.new ≡ lent self.old };

    /// Ends the session if there is one.
    fn deselect(&mut self)
        ensures after { meaning self.new ≡ deselected bounded (meaning self.old) }
        ensures traced { trace self.new ≡ traced (trace self.old) Deselect }
        ensures lent { lent self.new ≡ lent self.old };
}

// A bus that is lent is a bus.
impl<B: SpiBus> SpiBus for &mut B {
    ghost meaning = { λ s. B.meaning s.now };

    ghost sound = { λ s. B.sound s.now };

    ghost aligned = { λ s. B.aligned s.now };

    ghost Trace = { B.Trace };

    ghost trace = { λ s. B.trace s.now };

    ghost traced = { B.traced };

    ghost Lent = { GName × B.Lent };

    ghost lent = { λ s. (s.ghost_name, B.lent s.now) };

    fn select(&mut self) {
        (**self).select()
    }

    fn exchange(&mut self, byte: u8) -> u8 {
        (**self).exchange(byte)
    }

    fn deselect(&mut self) {
        (**self).deselect()
    }
}
