//! The script runs on numbers and byte buffers: a chip is powered over lent memory, a script is run on it or on the board that
//! a driver makes of it, and power is taken away again; or a script is run over a dump, which nobody may write.
//!
//! What it promises: report, lent memory and answer buffer are one definition's value of what was passed; a refused run changes
//! nothing.
#![tactic(auto)]

ghost use Rattle.std.specs.Prelude.{◌≡◌, ◌≤◌, true, length, IfOk};
ghost use Rattle.datasheet.specs.Sheets.{fits};
ghost use Rattle.datasheet.specs.Records.{stored_bits};
ghost use Rattle.board_model.specs.Images.{bytes_of};
ghost use Rattle.script.specs.Runs.{board_outcome};
ghost use Rattle.script_reports.specs.Marks.{marks_by};
ghost use Rattle.script_reports.specs.Reports.{report_of};
ghost use Rattle.script_reports.specs.Shown.{shown_of};
ghost use Rattle.script_reports.specs.Visits.{Visits, Parks, on_chip, on_board};

mod boards;
mod dumps;
mod programs;

use boards::run_stepped;
use chip::ParkedChip;
use datasheet::{Marks, Refusal, Sheet};
pub use dumps::dump_report;
pub use programs::{ANSWER_BYTES, SCRIPT_BYTES, Target, output};
use script::{Counts, chip_visit};

/// What a run answers besides the bytes in the answer buffer. Its layout is that of `fram_report` in C.
#[repr(C)]
#[derive(Clone, Copy, Debug, PartialEq, Eq)]
pub struct Report {
    /// 0, or the number of the refusal
    pub refusal: u32,
    /// the place of the kind byte, for refusals 8 and 9; else 0
    pub place: u64,
    /// the steps that were run
    pub steps: u64,
    /// the bytes that were put into the answer buffer
    pub answer_bytes: u64,
    /// the stored status bits 7 to 2 afterwards
    pub stored: u8,
}

impl Report {
    /// The report of a run after which the chip has these stored bits.
    fn new(outcome: Result<Counts, Refusal>, stored: u8) -> Report
        ensures { result ≡ report_of outcome stored }
    {
        match outcome {
            Ok(Counts { steps, bytes }) => Report {
                refusal: 0,
                place: 0,
                steps: steps as u64,
                answer_bytes: bytes as u64,
                stored,
            },
            Err(refusal) => Report {
                refusal: u32::from(u8::from(refusal)),
                place: refusal.place().unwrap_or(0) as u64,
                steps: 0,
                answer_bytes: 0,
                stored,
            },
        }
    }

    /// The report of a visit that ended, by the chip that was given back.
    fn of_visit(outcome: Result<Counts, Refusal>, parked: ParkedChip) -> Report
        ensures { result ≡ report_of outcome parked.stored.bits }
    {
        let (_, stored) = parked.into_parts();
        Report::new(outcome, stored)
    }

    /// The report of a visit that was refused before it began: the stored bits are those that were given.
    fn refused(refusal: Refusal, status: u8) -> Report
        ensures { result ≡ report_of (Err refusal) (stored_bits status) }
    {
        Report::new(Err(refusal), status - status % 4)
    }
}

/// Marks by bytes: each is no at 0 and yes at any other value.
pub fn marks(drop: u8, sleep: u8, fast: u8) -> Marks
    ensures { result ≡ marks_by drop sleep fast }
{
    Marks {
        drop: drop != 0,
        sleep: sleep != 0,
        fast: fast != 0,
    }
}

/// The chip that is to be powered over this memory. It is refused where there is no sheet, then where the memory does not fit.
pub fn park(t: u8, f: u8, marks: Marks, status: u8, memory: &[u8]) -> Result<ParkedChip, Refusal>
    ensures { Parks t f marks status memory.now result }
{
    let sheet = Sheet::new(t, f, marks)?;
    sheet.check_memory(memory)?;
    Ok(ParkedChip::new(sheet, status))
}

/// The chip run on a chip of these ID bytes, marks and stored bits over lent memory.
pub fn chip_report(
    t: u8,
    f: u8,
    marks: Marks,
    status: u8,
    memory: &mut [u8],
    script: &[u8],
    answers: &mut [u8],
) -> Report
    ensures visit { Visits on_chip t f marks status memory.old script.now answers.old
        (record { report = result; memory = memory.new; answers = answers.new }) }
    ensures within { result.«answer_bytes» ≤ length answers.old }
{
    match park(t, f, marks, status, memory) {
        Ok(parked) => {
            let (outcome, parked) = chip_visit(parked, memory, script, answers);
            Report::of_visit(outcome, parked)
        }
        Err(refusal) => Report::refused(refusal, status),
    }
}

/// Powers a parked chip over lent memory that fits it, runs a script on the board that a driver makes of it, and takes power away
/// again.
fn board_visit(
    parked: ParkedChip,
    memory: &mut [u8],
    script: &[u8],
    answers: &mut [u8],
) -> (Result<Counts, Refusal>, ParkedChip)
    requires fits { fits parked.sheet memory.old ≡ true }
    ensures result { result.0 ≡
        (board_outcome (shown_of parked.sheet memory.old parked.stored.bits) script.now answers.old).result }
    ensures within { IfOk result.0 (λ counts. counts.bytes ≤ length answers.old) }
    ensures answers { answers.new ≡
        (board_outcome (shown_of parked.sheet memory.old parked.stored.bits) script.now answers.old).buffer }
    ensures memory { memory.new ≡
        bytes_of (board_outcome (shown_of parked.sheet memory.old parked.stored.bits) script.now answers.old).left }
    ensures stored { result.1.stored.bits ≡ parked.stored.bits }
{
    let mut chip = parked.power(memory);
    let result = run_stepped(&mut chip, script, answers);
    (result, chip.power_off())
}

/// The board run on the board that a driver makes of that chip, which is stepped by bytes.
pub fn board_report(
    t: u8,
    f: u8,
    marks: Marks,
    status: u8,
    memory: &mut [u8],
    script: &[u8],
    answers: &mut [u8],
) -> Report
    ensures visit { Visits on_board t f marks status memory.old script.now answers.old
        (record { report = result; memory = memory.new; answers = answers.new }) }
    ensures within { result.«answer_bytes» ≤ length answers.old }
{
    match park(t, f, marks, status, memory) {
        Ok(parked) => {
            let (outcome, parked) = board_visit(parked, memory, script, answers);
            Report::of_visit(outcome, parked)
        }
        Err(refusal) => Report::refused(refusal, status),
    }
}
