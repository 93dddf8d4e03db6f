// The run over a reading board: sizes and reads.
ghost use Rattle.std.specs.Prelude.{◌≡◌, ◌≤◌, ◌+◌, ◌*◌, ◌++◌, length, drop, IfOk};
ghost use Rattle.script.specs.Steps.{read_kinds, first};
ghost use Rattle.script.specs.Machines.{board_machine, reply};
ghost use Rattle.script.specs.Replies.{three_bytes};
ghost use Rattle.script.specs.Runs.{CameTo, read_outcome};
ghost use Rattle.script.specs.Laws.{ReadsExactly};
ghost use Rattle.script.specs.ReadRuns.{RunsAsBoard};

use super::steps::Fault;
use super::{Answers, Counts, Runs, run};
use board::ReadBoard;
use datasheet::Refusal;

/// A step that a reading board carries out.
#[derive(Drop)]
pub(super) enum ReadStep {
    Size,
    ReadEight { start: usize },
}

/// The start that a step names in three bytes.
pub(super) fn start_of(high: u8, middle: u8, low: u8) -> usize
    ensures { result ≡ 65536 * high + (256 * middle + low) }
{
    usize::from(high) * 65536 + (usize::from(middle) * 256 + usize::from(low))
}

/// A number in three bytes.
pub(super) fn three_bytes(number: usize) -> [u8; 3]
    ensures { result ≡ three_bytes number }
{
    [
        (number / 65536 % 256) as u8,
        (number / 256 % 256) as u8,
        (number % 256) as u8,
    ]
}

impl ReadStep {
    ghost use Rattle.script.specs.StepCalls.{read_call_of};
    ghost use Rattle.script.specs.Views.{given, free};

    /// Carries out the step on a reading board, and puts its answer.
    pub(super) fn carry_out<B: ReadBoard>(self, board: &mut B, answers: &mut Answers<'_>)
        requires { 9 ≤ length (free answers.old) }
        ensures image { B.image board.new ≡ B.image board.old }
        ensures beneath { B.beneath board.new ≡ B.beneath board.old }
        ensures lent { B.lent board.new ≡ B.lent board.old }
        ensures given { given answers.new ≡
            given answers.old ++ reply board_machine (B.image board.old) (read_call_of self) }
        ensures free { free answers.new ≡
            drop (length (reply board_machine (B.image board.old) (read_call_of self))) (free answers.old) }
        ensures few { length (reply board_machine (B.image board.old) (read_call_of self)) ≤ 9 }
        ensures buffer { answers.new.buffer.ghost_name ≡ answers.old.buffer.ghost_name }
    {
        match self {
            ReadStep::Size => {
                let [high, middle, low] = three_bytes(board.size());
                answers.put(&[0x83, high, middle, low]);
            }
            ReadStep::ReadEight { start } => {
                let mut cells = [0; 8];
                match board.read(start, &mut cells) {
                    Ok(()) => {
                        let [a, b, c, d, e, f, g, h] = cells;
                        answers.put(&[0x85, a, b, c, d, e, f, g, h]);
                    }
                    Err(refusal) => answers.put_refusal(refusal),
                }
            }
        }
    }
}

/// A reading board, as what a script runs on.
#[derive(Drop)]
struct OnReadBoard<B> {
    board: B,
}

impl<'s, B: ReadBoard> Runs<'s> for OnReadBoard<B> {
    ghost use Rattle.board_model.specs.Images.{Image};
    ghost use Rattle.board_model.specs.Calls.{BoardCall, BoardAnswer};
    ghost use Rattle.script.specs.StepCalls.{read_call_of};
    ghost use Rattle.script.specs.Views.{first_of};

    type Step = ReadStep;

    ghost Call = { BoardCall };

    ghost call = { read_call_of };

    ghost kinds = { read_kinds };

    ghost State = { Image };

    ghost state = { λ s. B.image s.board };

    ghost Answer = { BoardAnswer };

    ghost machine = { board_machine };

    ghost Lent = { B.Beneath × B.Lent };

    ghost lent = { λ s. (B.beneath s.board, B.lent s.board) };

    #[tactic(auto, using(crate::proofs::Found::whole_step))]
    fn first(script: &'s [u8]) -> Result<(ReadStep, &'s [u8]), Fault>
        ensures { first_of read_call_of result ≡ first read_kinds script.now }
    {
        match script {
            [3, rest @ ..] => Ok((ReadStep::Size, rest)),
            [5, high, middle, low, rest @ ..] => {
                let start = start_of(*high, *middle, *low);
                Ok((ReadStep::ReadEight { start }, rest))
            }
            [5, ..] => Err(Fault::ShortStep),
            _ => Err(Fault::UnknownKind),
        }
    }

    fn carry_out(&mut self, step: ReadStep, answers: &mut Answers<'_>) {
        step.carry_out(&mut self.board, answers);
    }
}

/// Runs a script of sizes and reads on a reading board; every other kind is unknown to it. The whole script is read first, then
/// the buffer is checked, then all steps run: a refused step puts its refusal into the buffer and stops nothing. The board is
/// left as it was.
#[tactic(auto, using(crate::proofs::Exact::reads_exactly, crate::proofs::ReadRuns::runs_as_board))]
pub fn read_run<B: ReadBoard>(
    board: &mut B,
    script: &[u8],
    buffer: &mut [u8],
) -> Result<Counts, Refusal>
    ensures outcome { CameTo (read_outcome (B.image board.old) script.now buffer.old)
        result (B.image board.new) buffer.new }
    ensures same { B.image board.new ≡ B.image board.old }
    ensures beneath { B.beneath board.new ≡ B.beneath board.old }
    ensures lent { B.lent board.new ≡ B.lent board.old }
    ensures within { IfOk result (λ counts. counts.bytes ≤ length buffer.old) }
    ensures law { ReadsExactly read_kinds }
    ensures alike { RunsAsBoard }
{
    let mut on = OnReadBoard { board };
    run(&mut on, script, buffer)
}
