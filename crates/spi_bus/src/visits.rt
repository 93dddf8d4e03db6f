// A visit: a parked chip powered, reached over a bus, and parked again.
ghost use Rattle.std.specs.Prelude.{◌≡◌};
ghost use Rattle.datasheet.specs.Chips.{whole};
ghost use Rattle.datasheet.specs.Kept.{bounded};
ghost use Rattle.spi_model.specs.Buses.{run};
ghost use Rattle.spi_model.specs.Turns.{calls_of, turns_made};
ghost use Rattle.spi_model.specs.Laws.{AsCalls, SessionSamples, LineIsBus, Same, BothBuses};
ghost use Rattle.spi_bus.specs.Behind.{behind_bus};
ghost use Rattle.spi_bus.specs.Ways.{bus_made};

use crate::{BusWork, SpiBus, Way, perform, work_over};
use chip::ParkedChip;
use spi_model::BusTurn;

/// The calls of all turns made, one after the other.
#[derive(Drop)]
struct AllTurns;

impl BusWork for AllTurns {
    type Item = BusTurn;

    type Answer = ();

    ghost Does = { λ _ b turns _ made left. (made ≡ turns_made bounded b (calls_of turns)) × (left ≡ behind_bus (run bounded b (calls_of turns))) };

    ghost calls = { λ _ _ turns. calls_of turns };

    fn carry_out<B: SpiBus>(self, bus: &mut B, turns: &mut [BusTurn]) {
        perform(bus, turns);
    }
}

/// Powers a parked chip over lent memory, makes the calls of these turns over a bus to it, and takes power away again; each answer
/// is put beside its call. Memory, stored bits and answers are what the rules over the full list of bits say, one value whichever
/// bus is taken.
#[tactic(auto, using(crate::proofs::Laws::same, crate::proofs::Laws::lines, crate::proofs::Laws::sessions, crate::proofs::Laws::as_calls))]
pub fn visit(parked: ParkedChip, memory: &mut [u8], way: Way, turns: &mut [BusTurn]) -> ParkedChip
    ensures turns { turns.new ≡ turns_made whole (bus_made parked memory.old way) (calls_of turns.old) }
    ensures memory { memory.new ≡ (run whole (bus_made parked memory.old way) (calls_of turns.old)).rec.memory }
    ensures stored { result.stored.bits ≡ (run whole (bus_made parked memory.old way) (calls_of turns.old)).rec.stored }
    ensures sheet { result.sheet ≡ parked.sheet }
    ensures same { (Same whole) × (Same bounded) × BothBuses }
    ensures lines { (LineIsBus whole) × (LineIsBus bounded) }
    ensures sessions { SessionSamples }
    ensures as_calls { (AsCalls whole) × (AsCalls bounded) }
{
    let mut chip = parked.power(memory);
    work_over(&mut chip, way, AllTurns, turns);
    chip.power_off()
}
