// How a chip is reached over a bus, whatever is done over it.
ghost use Rattle.std.specs.Prelude.{◌≡◌, List};
ghost use Rattle.datasheet.specs.declared.registers.Registers.{Registers};
ghost use Rattle.datasheet.specs.Kept.{bounded};
ghost use Rattle.datasheet.specs.Machines.{left_by};
ghost use Rattle.spi_model.specs.declared.bus_call.BusCall.{BusCall};
ghost use Rattle.spi_model.specs.Puts.{tracing, puts};
ghost use Rattle.spi_model.specs.Buses.{Bus};
ghost use Rattle.spi_model.specs.Meanings.{made};
ghost use Rattle.spi_bus.specs.Behind.{Behind, behind_bus, behind_chip};
ghost use Rattle.spi_bus.specs.Ways.{wp_of, line_puts, way_puts, way_samples};

use crate::{Line, Setting, SpiBus, SteppedBus};
use chip::{Pins, Stepped};

/// How a chip is reached.
#[derive(Clone, Copy, Debug, PartialEq, Eq)]
pub enum Way {
    /// stepped by bytes, with WP at this level
    Stepped { wp: bool },
    /// over a line, which moves the pins by this setting
    Line(Setting),
}

/// What is done over a bus, with a buffer that it may read and fill.
pub trait BusWork {
    /// What stands in the buffer.
    type Item: Drop;

    /// What it answers.
    type Answer: Drop;

    // What it comes to, by what the bus meant and what stood in the buffer: its answer, what stands in the buffer then, and what it
    // leaves behind the bus.
    ghost Does: { Self → Bus Registers → List Self.Item → Self.Answer → List Self.Item → Behind → Type 0 };

    // The calls that it makes, one after the other, by what the bus meant and what stood in the buffer.
    ghost calls: { Self → Bus Registers → List Self.Item → List BusCall };

    /// Does it over any bus, by these calls and no others. What the bus was given stays.
    fn carry_out<B: SpiBus>(self, bus: &mut B, buffer: &mut [Self::Item]) -> Self::Answer
        ensures does { Does self (B.meaning bus.old) buffer.old result buffer.new (behind_bus (B.meaning bus.new)) }
        ensures traced { B.trace bus.new ≡
            left_by B.traced (B.trace bus.old) (calls self (B.meaning bus.old) buffer.old) }
        ensures lent { B.lent bus.new ≡ B.lent bus.old };
}

/// Does it over a line to these pins. The samples that reach them are those that make the line, and those of the calls.
pub fn work_over_line<P: Pins, W: BusWork>(
    pins: &mut P,
    setting: Setting,
    work: W,
    buffer: &mut [W::Item],
) -> W::Answer
    ensures does { W.Does work (made bounded setting.wp (P.chip pins.old)) buffer.old result buffer.new (behind_chip (P.chip pins.new)) }
    ensures put { P.chip pins.new ≡ puts bounded (P.chip pins.old)
        (line_puts setting (W.calls work (made bounded setting.wp (P.chip pins.old)) buffer.old)) }
    ensures traced { P.trace pins.new ≡ tracing P.traced (P.trace pins.old)
        (line_puts setting (W.calls work (made bounded setting.wp (P.chip pins.old)) buffer.old)) }
    ensures lent { P.lent pins.new ≡ P.lent pins.old }
{
    let mut line = Line::new(pins, setting);
    work.carry_out(&mut line, buffer)
}

/// Does it over the bus that this way makes to a chip. The samples that reach it are those of the way, on a line all, on a chip
/// stepped by bytes those of CS alone; it is left as by those of a line.
pub fn work_over<C: Stepped, W: BusWork>(
    chip: &mut C,
    way: Way,
    work: W,
    buffer: &mut [W::Item],
) -> W::Answer
    ensures does { W.Does work (made bounded (wp_of way) (C.chip chip.old)) buffer.old result buffer.new (behind_chip (C.chip chip.new)) }
    ensures put { C.chip chip.new ≡ puts bounded (C.chip chip.old)
        (way_samples way (W.calls work (made bounded (wp_of way) (C.chip chip.old)) buffer.old)) }
    ensures traced { C.trace chip.new ≡ tracing C.traced (C.trace chip.old)
        (way_puts way (W.calls work (made bounded (wp_of way) (C.chip chip.old)) buffer.old)) }
    ensures lent { C.lent chip.new ≡ C.lent chip.old }
{
    match way {
        Way::Stepped { wp } => {
            let mut bus = SteppedBus::new(chip, wp);
            work.carry_out(&mut bus, buffer)
        }
        Way::Line(setting) => work_over_line(chip, setting, work, buffer),
    }
}
