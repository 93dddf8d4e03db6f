//! The C entry points: the script runs on numbers and byte buffers (include/fram.h).
//!
//! What it promises: that of the reports. Each function is total: whatever the numbers are, and however long the buffers.
#![tactic(auto)]

ghost use Rattle.std.specs.Prelude.{◌≡◌};
ghost use Rattle.script_reports.specs.Marks.{marks_by};
ghost use Rattle.script_reports.specs.Visits.{Visits, on_chip, on_board, on_dump};

use script_reports::{Report, board_report, chip_report, dump_report, marks};

/// The chip run, on the pins of the chip.
#[unsafe(no_mangle)]
pub extern "C" fn fram_chip_run(
    t: u8,
    f: u8,
    drop: u8,
    sleep: u8,
    fast: u8,
    stored: u8,
    memory: &mut [u8],
    script: &[u8],
    answers: &mut [u8],
) -> Report
    ensures { Visits on_chip t f (marks_by drop sleep fast) stored memory.old script.now answers.old
        (record { report = result; memory = memory.new; answers = answers.new }) }
{
    chip_report(
        t,
        f,
        marks(drop, sleep, fast),
        stored,
        memory,
        script,
        answers,
    )
}

/// The board run, on the board that a driver makes of the chip.
#[unsafe(no_mangle)]
pub extern "C" fn fram_board_run(
    t: u8,
    f: u8,
    drop: u8,
    sleep: u8,
    fast: u8,
    stored: u8,
    memory: &mut [u8],
    script: &[u8],
    answers: &mut [u8],
) -> Report
    ensures { Visits on_board t f (marks_by drop sleep fast) stored memory.old script.now answers.old
        (record { report = result; memory = memory.new; answers = answers.new }) }
{
    board_report(
        t,
        f,
        marks(drop, sleep, fast),
        stored,
        memory,
        script,
        answers,
    )
}

/// The run over a dump, memory that nobody may write.
#[unsafe(no_mangle)]
pub extern "C" fn fram_dump_run(memory: &[u8], script: &[u8], answers: &mut [u8]) -> Report
    ensures { record { report = result; memory = memory.now; answers = answers.new } ≡
        on_dump memory.now script.now answers.old }
{
    dump_report(memory, script, answers)
}
