// A chip stepped by bytes.
ghost use Rattle.std.specs.Prelude.{◌≡◌, false, true, [], ◌∷◌};
ghost use Rattle.datasheet.specs.Kept.{bounded};
ghost use Rattle.chip_laws.specs.Laws.{RollsOver};
ghost use Rattle.spi_model.specs.declared.mode.Mode.TheVariants.{Mode0};
ghost use Rattle.spi_model.specs.declared.bus_call.BusCall.TheVariants.{Exchange};
ghost use Rattle.spi_model.specs.Puts.{tracing, puts};
ghost use Rattle.spi_model.specs.Samples.{rises};
ghost use Rattle.spi_model.specs.SteppedBytes.{whole_bytes};
ghost use Rattle.spi_model.specs.Buses.{exchanged, read};
ghost use Rattle.spi_model.specs.Meanings.{kept_of, made, AtRest};
ghost use Rattle.spi_model.specs.Laws.{ByteAtOnce};
ghost use Rattle.spi_model.proofs.Aligned.{session_whole};
ghost use Rattle.spi_model.proofs.Rests.{pins_at_prop};

use crate::SpiBus;
use chip::{Pins, Stepped};
use spi_model::{Mode, NOT_DRIVEN};

/// A bus that steps its chip by bytes, with no pin moved while bytes are exchanged. With no open session an exchange answers FFh
/// and steps nothing. Between its calls the chip is as a line in mode 0 leaves it, and its session has whole bytes.
#[derive(Drop)]
pub struct SteppedBus<C: Stepped> {
    chip: C,
    wp: bool,
    in_session: bool,
    ghost at_rest: { AtRest bounded Mode0 (record { chip = C.chip chip; in_session = in_session }) } by { Prim.hlevel pins_at_prop },
    ghost aligned: { whole_bytes (kept_of bounded (C.chip chip)) ≡ true },
}

impl<C: Stepped> SteppedBus<C> {
    ghost use Rattle.spi_bus.specs.Views.{stepped_meaning};

    /// A bus over this chip. Any session of it ends, as by CS high.
    pub fn new(chip: C, wp: bool) -> SteppedBus<C>
        ensures put { C.chip result.chip ≡ puts bounded (C.chip chip) (rises Mode0 wp ∷ []) }
        ensures traced { C.trace result.chip ≡
            tracing C.traced (C.trace chip) (rises Mode0 wp ∷ []) }
        ensures made { stepped_meaning C.chip result ≡ made bounded wp (C.chip chip) }
        ensures wp { result.wp ≡ wp }
        ensures in_session { result.in_session ≡ false }
        ensures lent { C.lent result.chip ≡ C.lent chip }
    {
        let mut chip = chip;
        let _ = chip.put(Mode::Mode0.chip_select(wp, true));
        SteppedBus {
            chip,
            wp,
            in_session: false,
        }
    }
}

// Each call states, by what the bus keeps of its calls, that it leaves the chip as a line in mode 0 would, and puts the samples
// of CS alone.
impl<C: Stepped> SpiBus for SteppedBus<C> {
    ghost use Rattle.std.specs.Prelude.{Bool};
    ghost use Rattle.spi_bus.specs.Traces.{BusTrace, stepped_traced};
    ghost use Rattle.spi_bus.specs.Views.{stepped_meaning, stepped_lent, stepped_trace};

    ghost meaning = { λ s. stepped_meaning C.chip s };

    ghost sound = { λ s. C.sound s.chip };

    ghost aligned = { λ s. session_whole s.in_session (kept_of bounded (C.chip s.chip)) s.aligned };

    ghost Trace = { BusTrace C.Trace };

    ghost trace = { λ s. stepped_trace C.chip C.trace s };

    ghost traced = { stepped_traced C.traced };

    ghost Lent = { Bool × C.Lent };

    ghost lent = { λ s. stepped_lent C.lent s };

    fn select(&mut self) {
        if !self.in_session {
            let _ = self.chip.put(Mode::Mode0.chip_select(self.wp, false));
            self.in_session = true;
        }
    }

    fn exchange(&mut self, byte: u8) -> u8
        ensures read { result ≡ read bounded (stepped_meaning C.chip self.old) byte }
        ensures after { stepped_meaning C.chip self.new ≡
            exchanged bounded (stepped_meaning C.chip self.old) byte }
        ensures traced { stepped_trace C.chip C.trace self.new ≡
            stepped_traced C.traced (stepped_trace C.chip C.trace self.old) (Exchange byte) }
        ensures lent { stepped_lent C.lent self.new ≡ stepped_lent C.lent self.old }
        ensures law { ByteAtOnce }
        ensures rolls { RollsOver }
    {
        if self.in_session {
            self.chip.step(self.wp, byte)
        } else {
            NOT_DRIVEN
        }
    }

    fn deselect(&mut self) {
        if self.in_session {
            let _ = self.chip.put(Mode::Mode0.chip_select(self.wp, true));
            self.in_session = false;
        }
    }
}
