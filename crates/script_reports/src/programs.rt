// The two script programs: what each writes of the bytes that it reads.
ghost use Rattle.std.specs.Prelude.{◌≡◌, ◌≤◌, length, take};
ghost use Rattle.script_reports.specs.Programs.{visit, fault_bytes, output, buffer_left};

use crate::{Report, board_report, chip_report};
use datasheet::{Part, Sheet};

/// The bytes of its input that a program takes for its script; what comes behind them is not looked at.
pub const SCRIPT_BYTES: usize = 4096;

/// The bytes of an answer buffer in which no script runs short: nine for each step, and a step has one byte at least.
pub const ANSWER_BYTES: usize = 9 * SCRIPT_BYTES;

/// The cells of an MB85RS64VY.
const CELLS: usize = 8192;

/// What a script program runs its script on: an MB85RS64VY with t 03h and f 02h, memory and status zero.
#[derive(Clone, Copy, Debug, PartialEq, Eq)]
pub enum Target {
    /// the pins of the chip: steps 1 and 2
    Pins,
    /// the board that a driver makes of it: steps 3 to 7
    Board,
}

impl Report {
    /// What is written of a script with a fault.
    fn fault_bytes(self) -> [u8; 4]
        ensures { result ≡ fault_bytes self }
    {
        let [.., number] = self.refusal.to_be_bytes();
        let [.., high, low] = self.place.to_be_bytes();
        [0x7E, number, high, low]
    }
}

impl Target {
    /// Runs a script on it, and puts the answers into the buffer.
    fn run(self, script: &[u8], answers: &mut [u8]) -> Report
        ensures report { result ≡ (visit self script.now answers.old).report }
        ensures answers { answers.new ≡ (visit self script.now answers.old).answers }
        ensures within { result.«answer_bytes» ≤ length answers.old }
    {
        let Sheet { t, f, marks } = Sheet::of(Part::Mb85rs64vy, 0x00, 0x02);
        let mut memory = [0; CELLS];
        match self {
            Target::Pins => chip_report(t, f, marks, 0, &mut memory, script, answers),
            Target::Board => board_report(t, f, marks, 0, &mut memory, script, answers),
        }
    }
}

/// Puts into the buffer what a script program writes of its input, and answers how many bytes that is: the answer bytes of the
/// script; or, where the script has a fault, 7Eh, the number of the refusal and the place of the kind byte in two bytes, the
/// higher first. Behind them the buffer holds zeros.
pub fn output(target: Target, input: &[u8], buffer: &mut [u8; ANSWER_BYTES]) -> usize
    ensures written { take result buffer.new ≡ output target input.now }
    ensures buffer { buffer.new ≡ buffer_left target input.now }
    ensures within { result ≤ ANSWER_BYTES }
{
    let script = &input[..SCRIPT_BYTES.min(input.len())];
    buffer.fill(0);
    let report = target.run(script, buffer);
    if report.refusal != 0 {
        buffer[..4].copy_from_slice(&report.fault_bytes());
        return 4;
    }
    report.answer_bytes as usize
}
