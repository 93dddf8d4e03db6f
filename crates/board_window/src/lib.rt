//! A window: a part of a board, as a board.
//!
//! What it promises: that of a board, for the cells that exist from the offset on.
#![tactic(auto)]

ghost use Rattle.std.specs.Prelude.{◌≡◌, ℕ, ◌+◌, ◌≤◌, IfOk};
ghost use Rattle.std.proofs.Common.{ap};
ghost use Rattle.board_model.specs.Images.{most};
ghost use Rattle.board_model.specs.Layers.{windowed, base_result};
ghost use Rattle.board_window.specs.Windows.{window_image, window_lent, window_beneath};
ghost use Rattle.board_model.specs.WindowBeneath.{WindowBeneath, window_shows, window_put, window_byte_at, window_stands};
ghost use Rattle.board_model.proofs.Windows.{window_few};
ghost use Rattle.board_model.proofs.WindowBeneath.{window_standing};

use board::{Board, ReadBoard, check_range};
use datasheet::Refusal;

/// The cells of a board from an offset on, at most `count` of them, as far as they exist there. The two numbers are kept
/// together by this struct itself.
#[derive(Drop)]
pub struct Window<B> {
    below: B,
    offset: usize,
    count: usize,
}

impl<B: ReadBoard> Window<B> {
    /// A window over a board.
    pub fn new(below: B, offset: usize, count: usize) -> Window<B>
        ensures below { result.below ≡ below }
        ensures offset { result.offset ≡ offset }
        ensures count { result.count ≡ count }
    {
        Window {
            below,
            offset,
            count,
        }
    }

    /// Where the window begins in the board below, if `count` places from `start` on lie in it.
    fn base(&mut self, start: usize, count: usize) -> Result<usize, Refusal>
        ensures base { result ≡
            base_result self.old.offset self.old.count (B.image self.old.below) start count }
        ensures few { IfOk result (λ base. base + start + count ≤ most) }
        ensures below { B.image self.new.below ≡ B.image self.old.below }
        ensures beneath { B.beneath self.new.below ≡ B.beneath self.old.below }
        ensures lent { B.lent self.new.below ≡ B.lent self.old.below }
        ensures offset { self.new.offset ≡ self.old.offset }
        ensures count { self.new.count ≡ self.old.count }
    {
        let total = self.below.size();
        let base = self.offset.min(total);
        check_range(start, count, self.count.min(total - base))?;
        Ok(base)
    }
}

impl<B: ReadBoard> ReadBoard for Window<B> {
    ghost image = { window_image B.image };

    ghost few = { λ s. window_few s.offset s.count (B.image s.below) (B.few s.below) };

    ghost Lent = { ℕ × ℕ × B.Lent };

    ghost lent = { window_lent B.lent };

    ghost Beneath = { WindowBeneath B.Beneath };

    ghost beneath = { window_beneath B.beneath };

    ghost shows = { window_shows B.shows };

    ghost shown = { λ s. ap (windowed s.offset s.count) (B.shown s.below) };

    ghost put = { window_put B.shows B.put };

    ghost Place = { B.Place };

    ghost byte_at = { window_byte_at B.byte_at };

    ghost stands = { window_stands B.shows B.stands };

    ghost standing = { window_standing B.standing };

    fn size(&mut self) -> usize {
        let total = self.below.size();
        self.count.min(total.saturating_sub(self.offset))
    }

    fn read(&mut self, start: usize, buffer: &mut [u8]) -> Result<(), Refusal> {
        let base = self.base(start, buffer.len())?;
        self.below.read(base + start, buffer)
    }
}

impl<B: Board> Board for Window<B> {
    fn first_fence(&mut self, start: usize, count: usize) -> Result<Option<usize>, Refusal> {
        let base = self.base(start, count)?;
        let found = self.below.first_fence(base + start, count)?;
        Ok(found.map(|place| place - base))
    }

    fn write(&mut self, start: usize, bytes: &[u8]) -> Result<(), Refusal> {
        let base = self.base(start, bytes.len())?;
        self.below.write(base + start, bytes)
    }
}
