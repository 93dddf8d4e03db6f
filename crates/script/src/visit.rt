// A visit: a parked chip powered, run and parked again.
ghost use Rattle.std.specs.Prelude.{◌≡◌, ◌≤◌, length, IfOk};
ghost use Rattle.script.specs.Visits.{visit_outcome};

use crate::run::{Counts, chip_run};
use chip::ParkedChip;
use datasheet::Refusal;

/// Powers a parked chip over lent memory, runs a script on it, and takes power away again. All of it is what the rules over
/// the full list of bits say.
#[tactic(auto, using(crate::proofs::Whole::from_power, crate::proofs::Whole::one_sheet))]
pub fn chip_visit(
    parked: ParkedChip,
    memory: &mut [u8],
    script: &[u8],
    buffer: &mut [u8],
) -> (Result<Counts, Refusal>, ParkedChip)
    ensures result { result.0 ≡ (visit_outcome parked memory.old script.now buffer.old).result }
    ensures within { IfOk result.0 (λ counts. counts.bytes ≤ length buffer.old) }
    ensures buffer { buffer.new ≡ (visit_outcome parked memory.old script.now buffer.old).buffer }
    ensures memory { memory.new ≡ (visit_outcome parked memory.old script.now buffer.old).left.rec.memory }
    ensures stored { result.1.stored.bits ≡ (visit_outcome parked memory.old script.now buffer.old).left.rec.stored }
    ensures sheet { result.1.sheet ≡ parked.sheet }
{
    let mut chip = parked.power(memory);
    let result = chip_run(&mut chip, script, buffer);
    (result, chip.power_off())
}
