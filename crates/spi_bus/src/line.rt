// A line: a bus that moves the pins.
ghost use Rattle.std.specs.Prelude.{◌≡◌, false, true, [], ◌∷◌};
ghost use Rattle.datasheet.specs.Chips.{whole};
ghost use Rattle.datasheet.specs.Kept.{bounded};
ghost use Rattle.spi_model.specs.declared.bus_call.BusCall.TheVariants.{Exchange};
ghost use Rattle.spi_model.specs.Puts.{tracing, puts};
ghost use Rattle.spi_model.specs.Samples.{rises};
ghost use Rattle.spi_model.specs.SteppedBytes.{whole_bytes};
ghost use Rattle.spi_model.specs.Buses.{exchanged, read};
ghost use Rattle.spi_model.specs.Meanings.{kept_of, made, AtRest};
ghost use Rattle.spi_model.proofs.Aligned.{session_whole};
ghost use Rattle.spi_model.proofs.Rests.{pins_at_prop};
ghost use Rattle.spi_model.specs.Laws.{ByteAtPins, Follows, Makes, NeverSpoils};

use crate::clock::put_byte;
use crate::{Setting, SpiBus};
use chip::Pins;
use spi_model::NOT_DRIVEN;

/// A bus that reaches its chip by samples alone, and so marks by itself whether it has a session open. An exchange in one puts the
/// samples of eight bits; with none open it puts no sample and answers FFh. Between its calls the pins are at rest, and its session
/// has whole bytes.
#[derive(Drop)]
pub struct Line<P: Pins> {
    pins: P,
    setting: Setting,
    in_session: bool,
    ghost at_rest: { AtRest bounded setting.mode (record { chip = P.chip pins; in_session = in_session }) } by { Prim.hlevel pins_at_prop },
    ghost aligned: { whole_bytes (kept_of bounded (P.chip pins)) ≡ true },
}

impl<P: Pins> Line<P> {
    ghost use Rattle.spi_bus.specs.Views.{line_meaning};

    /// A line to these pins. One sample with CS high ends any session of the chip.
    #[tactic(auto, using(crate::proofs::Laws::made, crate::proofs::Laws::unspoiled))]
    pub fn new(pins: P, setting: Setting) -> Line<P>
        ensures put { P.chip result.pins ≡
            puts bounded (P.chip pins) (rises setting.mode setting.wp ∷ []) }
        ensures traced { P.trace result.pins ≡
            tracing P.traced (P.trace pins) (rises setting.mode setting.wp ∷ []) }
        ensures made { line_meaning P.chip result ≡ made bounded setting.wp (P.chip pins) }
        ensures setting { result.setting ≡ setting }
        ensures in_session { result.in_session ≡ false }
        ensures lent { P.lent result.pins ≡ P.lent pins }
        ensures law { (Makes whole) × (Makes bounded) }
        ensures unspoiled { (NeverSpoils whole) × (NeverSpoils bounded) }
    {
        let mut pins = pins;
        let _ = pins.put(setting.mode.chip_select(setting.wp, true));
        Line {
            pins,
            setting,
            in_session: false,
        }
    }
}

// Each call states, by what the line keeps of its calls, the list of its samples, and that its chip is left as by them.
impl<P: Pins> SpiBus for Line<P> {
    ghost use Rattle.std.specs.Prelude.{ℕ, Bool};
    ghost use Rattle.spi_model.specs.declared.mode.Mode.{Mode};
    ghost use Rattle.spi_bus.specs.Traces.{BusTrace, line_traced};
    ghost use Rattle.spi_bus.specs.Views.{line_meaning, line_lent, line_trace};

    ghost meaning = { λ s. line_meaning P.chip s };

    ghost sound = { λ s. P.sound s.pins };

    ghost aligned = { λ s. session_whole s.in_session (kept_of bounded (P.chip s.pins)) s.aligned };

    ghost Trace = { BusTrace P.Trace };

    ghost trace = { λ s. line_trace P.chip P.trace s };

    ghost traced = { line_traced P.traced };

    ghost Lent = { Mode × ℕ × Bool × P.Lent };

    ghost lent = { λ s. line_lent P.lent s };

    fn select(&mut self) {
        if !self.in_session {
            let Setting { mode, wp, .. } = self.setting;
            let _ = self.pins.put(mode.chip_select(wp, false));
            self.in_session = true;
        }
    }

    #[tactic(auto, using(crate::proofs::Laws::bytes, crate::proofs::Laws::followed))]
    fn exchange(&mut self, byte: u8) -> u8
        ensures read { result ≡ read bounded (line_meaning P.chip self.old) byte }
        ensures after { line_meaning P.chip self.new ≡
            exchanged bounded (line_meaning P.chip self.old) byte }
        ensures traced { line_trace P.chip P.trace self.new ≡
            line_traced P.traced (line_trace P.chip P.trace self.old) (Exchange byte) }
        ensures lent { line_lent P.lent self.new ≡ line_lent P.lent self.old }
        ensures law { (ByteAtPins whole) × (ByteAtPins bounded) }
        ensures law_of_calls { (Follows whole) × (Follows bounded) }
    {
        if self.in_session {
            put_byte(&mut self.pins, self.setting, byte)
        } else {
            NOT_DRIVEN
        }
    }

    fn deselect(&mut self) {
        if self.in_session {
            let Setting { mode, wp, .. } = self.setting;
            let _ = self.pins.put(mode.chip_select(wp, true));
            self.in_session = false;
        }
    }
}
