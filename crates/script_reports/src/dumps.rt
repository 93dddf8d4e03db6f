// The run over a dump.
ghost use Rattle.std.specs.Prelude.{◌≡◌, ◌≤◌, length};
ghost use Rattle.script_reports.specs.Visits.{on_dump};
ghost use Rattle.script_reports.specs.DumpOfChip.{AnswersAsChip};

use crate::Report;
use board::Dump;
use script::read_run;

/// Runs a script of sizes and reads over a dump: memory that nobody may write, its first 1,048,576 bytes. The report's stored
/// bits are 0.
pub fn dump_report(memory: &[u8], script: &[u8], answers: &mut [u8]) -> Report
    ensures visit { record { report = result; memory = memory.now; answers = answers.new } ≡
        on_dump memory.now script.now answers.old }
    ensures within { result.«answer_bytes» ≤ length answers.old }
    ensures law { AnswersAsChip }
{
    let mut dump = Dump::new(memory);
    Report::new(read_run(&mut dump, script, answers), 0)
}
