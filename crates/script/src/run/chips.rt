// The chip run: samples and power cycles, on a chip at its pins.
ghost use Rattle.std.specs.Prelude.{◌≡◌, ◌≤◌, length, IfOk};
ghost use Rattle.datasheet.specs.Kept.{bounded};
ghost use Rattle.chip.specs.Views.{chip_of};
ghost use Rattle.script.specs.Steps.{chip_kinds, first};
ghost use Rattle.script.specs.Runs.{CameTo, outcome};
ghost use Rattle.script.specs.Laws.{ReadsExactly};

use super::steps::Fault;
use super::{Answers, Counts, Runs, run};
use chip::Chip;
use datasheet::Refusal;

/// A step of the chip run.
#[derive(Drop)]
pub(super) enum ChipStep {
    Sample(u8),
    PowerCycle,
}

impl<'s> Runs<'s> for Chip<'_> {
    ghost use Rattle.std.specs.Borrow.{GName};
    ghost use Rattle.datasheet.specs.declared.registers.Registers.{Registers};
    ghost use Rattle.datasheet.specs.Calls.{ChipCall, ChipState, ChipAnswer};
    ghost use Rattle.script.specs.Machines.{chip_machine};
    ghost use Rattle.script.specs.StepCalls.{chip_call_of};
    ghost use Rattle.script.specs.Views.{first_of};

    type Step = ChipStep;

    ghost Call = { ChipCall };

    ghost call = { chip_call_of };

    ghost kinds = { chip_kinds };

    ghost State = { ChipState Registers };

    ghost state = { chip_of };

    ghost Answer = { ChipAnswer };

    ghost machine = { chip_machine bounded };

    ghost Lent = { GName };

    ghost lent = { λ c. c.memory.ghost_name };

    #[tactic(auto, using(crate::proofs::Found::whole_step))]
    fn first(script: &'s [u8]) -> Result<(ChipStep, &'s [u8]), Fault>
        ensures { first_of chip_call_of result ≡ first chip_kinds script.now }
    {
        match script {
            [1, byte, rest @ ..] => Ok((ChipStep::Sample(*byte), rest)),
            [2, rest @ ..] => Ok((ChipStep::PowerCycle, rest)),
            [1] => Err(Fault::ShortStep),
            _ => Err(Fault::UnknownKind),
        }
    }

    fn carry_out(&mut self, step: ChipStep, answers: &mut Answers<'_>) {
        match step {
            ChipStep::Sample(byte) => match self.sample(byte) {
                Ok(level) => answers.put(&[0x81, u8::from(level)]),
                Err(refusal) => answers.put_refusal(refusal),
            },
            ChipStep::PowerCycle => {
                self.power_cycle();
                answers.put(&[0x82]);
            }
        }
    }
}

/// Runs a script on a chip. The whole script is read first, then the buffer is checked, then all steps run: a refused step
/// puts its refusal into the buffer and stops nothing.
#[tactic(auto, using(crate::proofs::Exact::reads_exactly))]
pub fn chip_run(chip: &mut Chip<'_>, script: &[u8], buffer: &mut [u8]) -> Result<Counts, Refusal>
    ensures outcome { CameTo (outcome bounded (chip_of chip.old) script.now buffer.old) result (chip_of chip.new) buffer.new }
    ensures within { IfOk result (λ counts. counts.bytes ≤ length buffer.old) }
    ensures lent { chip.new.memory.ghost_name ≡ chip.old.memory.ghost_name }
    ensures law { ReadsExactly chip_kinds }
{
    run(chip, script, buffer)
}
