// A script run on the board that a driver makes of a chip.
ghost use Rattle.std.specs.Prelude.{◌≡◌, ◌≤◌, true, length, IfOk};
ghost use Rattle.datasheet.specs.Kept.{bounded};
ghost use Rattle.spi_model.specs.Meanings.{made};
ghost use Rattle.spi_bus.specs.Behind.{behind_bus, behind_chip};
ghost use Rattle.spi_driver.specs.Drives.{image_of};
ghost use Rattle.script.specs.Runs.{CameTo, board_outcome};
ghost use Rattle.script_reports.specs.Shown.{shown_behind};

use chip::Stepped;
use datasheet::Refusal;
use script::{Counts, board_run};
use spi_bus::{SpiBus, SteppedBus};
use spi_driver::Driver;

/// The board run of a script on the board that a driver makes of this bus.
fn run_over<B: SpiBus>(bus: &mut B, script: &[u8], answers: &mut [u8]) -> Result<Counts, Refusal>
    ensures came { CameTo (board_outcome (image_of (B.meaning bus.old)) script.now answers.old)
        result (shown_behind (behind_bus (B.meaning bus.new))) answers.new }
    ensures within { IfOk result (λ counts. counts.bytes ≤ length answers.old) }
    ensures stored { (B.meaning bus.new).rec.stored ≡ (B.meaning bus.old).rec.stored }
    ensures lent { B.lent bus.new ≡ B.lent bus.old }
{
    let mut driver = Driver::new(bus);
    board_run(&mut driver, script, answers)
}

/// The same over a chip, which is stepped by bytes with WP high.
pub(crate) fn run_stepped<C: Stepped>(
    chip: &mut C,
    script: &[u8],
    answers: &mut [u8],
) -> Result<Counts, Refusal>
    ensures came { CameTo (board_outcome (image_of (made bounded true (C.chip chip.old))) script.now answers.old)
        result (shown_behind (behind_chip (C.chip chip.new))) answers.new }
    ensures within { IfOk result (λ counts. counts.bytes ≤ length answers.old) }
    ensures stored { (C.chip chip.new).rec.stored ≡ (made bounded true (C.chip chip.old)).rec.stored }
    ensures lent { C.lent chip.new ≡ C.lent chip.old }
{
    let mut bus = SteppedBus::new(chip, true);
    run_over(&mut bus, script, answers)
}
