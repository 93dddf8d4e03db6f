// The board run: sizes, fence questions, reads and writes, on any board.
ghost use Rattle.std.specs.Prelude.{◌≡◌, ◌≤◌, length, IfOk};
ghost use Rattle.script.specs.Steps.{board_kinds, first};
ghost use Rattle.script.specs.Replies.{place_bytes};
ghost use Rattle.script.specs.Runs.{CameTo, board_outcome, outcome_below};
ghost use Rattle.script.specs.Laws.{ReadsExactly};
ghost use Rattle.script.specs.Kept.{KeepsFenced, KeepsUnnamed, KeepsBeneath};

use super::reads::{ReadStep, start_of, three_bytes};
use super::steps::Fault;
use super::{Answers, Counts, Runs, run};
use board::Board;
use datasheet::Refusal;
use std::slice::from_ref;

/// A step of the board run. The data bytes of a write stay a part of the script.
#[derive(Drop)]
pub(super) enum BoardStep<'s> {
    Read(ReadStep),
    Fence { start: usize },
    WriteEight { start: usize, bytes: &'s [u8; 8] },
    WriteOne { start: usize, byte: &'s u8 },
}

/// A place in three bytes, or FFFFFFh for none.
fn place_bytes(place: Option<usize>) -> [u8; 3]
    ensures { result ≡ place_bytes place }
{
    match place {
        Some(place) => three_bytes(place),
        None => [0xFF; 3],
    }
}

/// A board, as what a script runs on.
#[derive(Drop)]
struct OnBoard<B> {
    board: B,
}

impl<'s, B: Board> Runs<'s> for OnBoard<B> {
    ghost use Rattle.board_model.specs.Calls.{BoardCall, BoardAnswer};
    ghost use Rattle.script.specs.Machines.{machine_below};
    ghost use Rattle.script.specs.StepCalls.{board_call_of};
    ghost use Rattle.script.specs.Views.{first_of};

    type Step = BoardStep<'s>;

    ghost Call = { BoardCall };

    ghost call = { board_call_of };

    ghost kinds = { board_kinds };

    ghost State = { B.Beneath };

    ghost state = { λ s. B.beneath s.board };

    ghost Answer = { BoardAnswer };

    ghost machine = { machine_below B.shows B.put };

    ghost Lent = { B.Lent };

    ghost lent = { λ s. B.lent s.board };

    #[tactic(auto, using(crate::proofs::Found::whole_step))]
    fn first(script: &'s [u8]) -> Result<(BoardStep<'s>, &'s [u8]), Fault>
        ensures { first_of board_call_of result ≡ first board_kinds script.now }
    {
        match script {
            [3, rest @ ..] => Ok((BoardStep::Read(ReadStep::Size), rest)),
            [4, high, middle, low, rest @ ..] => {
                let start = start_of(*high, *middle, *low);
                Ok((BoardStep::Fence { start }, rest))
            }
            [5, high, middle, low, rest @ ..] => {
                let start = start_of(*high, *middle, *low);
                Ok((BoardStep::Read(ReadStep::ReadEight { start }), rest))
            }
            // a pattern has one part of open length: the eight bytes are taken off it together
            [6, high, middle, low, tail @ ..] => match tail.split_first_chunk::<8>() {
                Some((bytes, rest)) => {
                    let start = start_of(*high, *middle, *low);
                    Ok((BoardStep::WriteEight { start, bytes }, rest))
                }
                None => Err(Fault::ShortStep),
            },
            [7, high, middle, low, byte, rest @ ..] => {
                let start = start_of(*high, *middle, *low);
                Ok((BoardStep::WriteOne { start, byte }, rest))
            }
            [4..=7, ..] => Err(Fault::ShortStep),
            _ => Err(Fault::UnknownKind),
        }
    }

    fn carry_out(&mut self, step: BoardStep<'s>, answers: &mut Answers<'_>) {
        match step {
            BoardStep::Read(step) => step.carry_out(&mut self.board, answers),
            BoardStep::Fence { start } => match self.board.first_fence(start, 8) {
                Ok(place) => {
                    let [high, middle, low] = place_bytes(place);
                    answers.put(&[0x84, high, middle, low]);
                }
                Err(refusal) => answers.put_refusal(refusal),
            },
            BoardStep::WriteEight { start, bytes } => match self.board.write(start, bytes) {
                Ok(()) => answers.put(&[0x86]),
                Err(refusal) => answers.put_refusal(refusal),
            },
            BoardStep::WriteOne { start, byte } => match self.board.write(start, from_ref(byte)) {
                Ok(()) => answers.put(&[0x86]),
                Err(refusal) => answers.put_refusal(refusal),
            },
        }
    }
}

/// Runs a script on a board. The whole script is read first, then the buffer is checked, then all steps run: a refused step
/// puts its refusal into the buffer and stops nothing.
#[tactic(auto, using(crate::proofs::Exact::reads_exactly, crate::proofs::Fences::fences))]
pub fn board_run<B: Board>(
    board: &mut B,
    script: &[u8],
    buffer: &mut [u8],
) -> Result<Counts, Refusal>
    ensures outcome { CameTo (board_outcome (B.image board.old) script.now buffer.old) result (B.image board.new) buffer.new }
    ensures beneath { B.beneath board.new ≡
        (outcome_below B.shows B.put (B.beneath board.old) script.now buffer.old).left }
    ensures within { IfOk result (λ counts. counts.bytes ≤ length buffer.old) }
    ensures lent { B.lent board.new ≡ B.lent board.old }
    ensures law { ReadsExactly board_kinds }
    ensures fences { KeepsFenced }
    ensures unnamed { KeepsUnnamed }
    ensures unaltered { KeepsBeneath B.ReadBoard }
{
    let mut on = OnBoard { board };
    run(&mut on, script, buffer)
}
