//! A join: two boards, one after the other, as a board.
//!
//! What it promises: that of a board, for the cells of both, cut at 1,048,576; a write puts all its bytes or none.
#![tactic(auto)]

ghost use Rattle.std.specs.Prelude.{◌≡◌};
ghost use Rattle.board_join.specs.Joins.{join_image, join_lent, join_beneath, cut_result};
ghost use Rattle.board_model.specs.JoinBeneath.{JoinBeneath, JoinPlace, join_shows, join_put, join_byte_at, join_stands};
ghost use Rattle.board_model.proofs.Joins.{join_few, join_shown};
ghost use Rattle.board_model.proofs.JoinBeneath.{join_standing};

use board::{Board, MOST, ReadBoard, check_range};
use board_model::Range;
use datasheet::Refusal;

/// The cells of two boards in order, cut at 1,048,576.
#[derive(Drop)]
pub struct Join<A, B> {
    first: A,
    second: B,
}

/// Where a range lies in the two boards: how many cells the first has, and the range's part in each, by that board's places.
#[derive(Clone, Copy, Debug, PartialEq, Eq)]
struct Cut {
    seam: usize,
    front: Range,
    back: Range,
}

impl<A: ReadBoard, B: ReadBoard> Join<A, B> {
    /// A join of two boards.
    pub fn new(first: A, second: B) -> Join<A, B>
        ensures first { result.first ≡ first }
        ensures second { result.second ≡ second }
    {
        Join { first, second }
    }

    /// Where `count` places from `start` on lie in the two boards, if they lie in the join.
    fn cut(&mut self, start: usize, count: usize) -> Result<Cut, Refusal>
        ensures cut { result ≡
            cut_result (A.image self.old.first) (B.image self.old.second) start count }
        ensures first { A.image self.new.first ≡ A.image self.old.first }
        ensures second { B.image self.new.second ≡ B.image self.old.second }
        ensures beneath_first { A.beneath self.new.first ≡ A.beneath self.old.first }
        ensures beneath_second { B.beneath self.new.second ≡ B.beneath self.old.second }
        ensures lent_first { A.lent self.new.first ≡ A.lent self.old.first }
        ensures lent_second { B.lent self.new.second ≡ B.lent self.old.second }
    {
        let seam = self.first.size();
        check_range(start, count, MOST.min(seam + self.second.size()))?;
        let at = start.min(seam);
        let ahead = count.min(seam - at);
        Ok(Cut {
            seam,
            front: Range {
                start: at,
                count: ahead,
            },
            back: Range {
                start: start - at,
                count: count - ahead,
            },
        })
    }
}

impl<A: ReadBoard, B: ReadBoard> ReadBoard for Join<A, B> {
    ghost image = { join_image A.image B.image };

    ghost few = { λ s. join_few (A.image s.first) (B.image s.second) };

    ghost Lent = { A.Lent × B.Lent };

    ghost lent = { join_lent A.lent B.lent };

    ghost Beneath = { JoinBeneath A.Beneath B.Beneath };

    ghost beneath = { join_beneath A.beneath B.beneath };

    ghost shows = { join_shows A.shows B.shows };

    ghost shown = { λ s. join_shown (A.shown s.first) (B.shown s.second) };

    ghost put = { join_put A.shows A.put B.put };

    ghost Place = { JoinPlace A.Place B.Place };

    ghost byte_at = { join_byte_at A.byte_at B.byte_at };

    ghost stands = { join_stands A.shows A.stands B.stands };

    ghost standing = { join_standing A.standing B.standing };

    fn size(&mut self) -> usize {
        MOST.min(self.first.size() + self.second.size())
    }

    fn read(&mut self, start: usize, buffer: &mut [u8]) -> Result<(), Refusal> {
        let cut = self.cut(start, buffer.len())?;
        let (front, back) = buffer.split_at_mut(cut.front.count);
        self.first.read(cut.front.start, front)?;
        self.second.read(cut.back.start, back)
    }
}

impl<A: Board, B: Board> Board for Join<A, B> {
    fn first_fence(&mut self, start: usize, count: usize) -> Result<Option<usize>, Refusal> {
        let cut = self.cut(start, count)?;
        let ahead = self.first.first_fence(cut.front.start, cut.front.count)?;
        // The second board is asked only where the first has no fence; by `or_else` its refusal could not go up by `?`.
        if ahead.is_some() {
            return Ok(ahead);
        }
        let behind = self.second.first_fence(cut.back.start, cut.back.count)?;
        Ok(behind.map(|place| cut.seam + place))
    }

    fn write(&mut self, start: usize, bytes: &[u8]) -> Result<(), Refusal> {
        let cut = self.cut(start, bytes.len())?;
        // Both boards are asked before either is written.
        let ahead = self.first.first_fence(cut.front.start, cut.front.count)?;
        let behind = self.second.first_fence(cut.back.start, cut.back.count)?;
        if ahead.or(behind).is_some() {
            return Err(Refusal::Fenced);
        }
        let (front, back) = bytes.split_at(cut.front.count);
        self.first.write(cut.front.start, front)?;
        self.second.write(cut.back.start, back)
    }
}
