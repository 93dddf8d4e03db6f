ghost use Rattle.std.specs.Prelude.{◌≡◌, [], ◌∷◌, ◌++◌, length, if◌then◌else◌, Ok, Err, nat_lt};
ghost use Rattle.std.proofs.Common.{ap};
ghost use Rattle.datasheet.specs.declared.refusal.Refusal.TheVariants.{OutOfRange, ShieldFull};
ghost use Rattle.board_shield.specs.declared.ranges.Ranges.{Ranges};
ghost use Rattle.board_model.specs.Layers.{stopped, shielded};
ghost use Rattle.board_shield.specs.Shields.{widened_at, earlier};
ghost use Rattle.board_shield.specs.Tables.{ranges_of};
ghost use Rattle.board_shield.specs.Shown.{shield_image, shield_lent, shield_beneath};
ghost use Rattle.board_model.specs.ShieldBeneath.{ShieldBeneath, shield_shows, shield_put, shield_byte_at, shield_stands};
ghost use Rattle.board_model.proofs.Shields.{shield_few};
ghost use Rattle.board_model.proofs.ShieldBeneath.{shield_standing};

use crate::ranges::Ranges;
use board::{Board, ReadBoard, check_range};
use board_model::Range;
use datasheet::Refusal;

/// A board whose cells in up to eight ranges are fenced besides those below.
#[derive(Drop)]
pub struct Shield<B> {
    below: B,
    ranges: Ranges,
}

/// The earlier of two places.
fn earlier(a: Option<usize>, b: Option<usize>) -> Option<usize>
    ensures { result ≡ earlier a b }
{
    a.into_iter().chain(b).min()
}

impl<B: ReadBoard> Shield<B> {
    /// A shield with no range over a board.
    pub fn new(below: B) -> Shield<B>
        ensures below { result.below ≡ below }
        ensures ranges { ranges_of result.ranges ≡ [] }
    {
        Shield {
            below,
            ranges: Ranges::new(),
        }
    }

    /// Adds a range, whose count stops at 1,048,576; a ninth is refused.
    pub fn add(&mut self, range: Range) -> Result<(), Refusal>
        ensures answer { result ≡
            (if nat_lt (length (ranges_of self.old.ranges)) 8 then Ok tt else Err ShieldFull) }
        ensures after { ranges_of self.new.ranges ≡
            (if nat_lt (length (ranges_of self.old.ranges)) 8 then (ranges_of self.old.ranges ++ stopped range ∷ []) else ranges_of self.old.ranges) }
        ensures below { self.new.below ≡ self.old.below }
    {
        self.ranges.add(range)
    }

    /// Widens range i, counted from 0, by so many places; refused where there is no range i.
    pub fn widen(&mut self, i: usize, by: usize) -> Result<(), Refusal>
        ensures answer { result ≡
            (if nat_lt i (length (ranges_of self.old.ranges)) then Ok tt else Err OutOfRange) }
        ensures after { ranges_of self.new.ranges ≡ widened_at (ranges_of self.old.ranges) i by }
        ensures below { self.new.below ≡ self.old.below }
    {
        self.ranges.widen(i, by)
    }
}

impl<B: ReadBoard> ReadBoard for Shield<B> {
    ghost image = { shield_image B.image };

    ghost few = { λ s. shield_few (ranges_of s.ranges) (B.image s.below) (B.few s.below) };

    ghost Lent = { Ranges × B.Lent };

    ghost lent = { shield_lent B.lent };

    ghost Beneath = { ShieldBeneath B.Beneath };

    ghost beneath = { shield_beneath B.beneath };

    ghost shows = { shield_shows B.shows };

    ghost shown = { λ s. ap (shielded (ranges_of s.ranges)) (B.shown s.below) };

    ghost put = { shield_put B.put };

    ghost Place = { B.Place };

    ghost byte_at = { shield_byte_at B.byte_at };

    ghost stands = { shield_stands B.stands };

    ghost standing = { shield_standing B.standing };

    fn size(&mut self) -> usize {
        self.below.size()
    }

    fn read(&mut self, start: usize, buffer: &mut [u8]) -> Result<(), Refusal> {
        self.below.read(start, buffer)
    }
}

impl<B: Board> Board for Shield<B> {
    fn first_fence(&mut self, start: usize, count: usize) -> Result<Option<usize>, Refusal> {
        let below = self.below.first_fence(start, count)?;
        Ok(earlier(self.ranges.first_in(Range { start, count }), below))
    }

    fn write(&mut self, start: usize, bytes: &[u8]) -> Result<(), Refusal> {
        // The board below asks for its own fences when it writes. Were it asked here too, each shield of a pile would go through
        // all that lie below it.
        check_range(start, bytes.len(), self.below.size())?;
        let asked = Range {
            start,
            count: bytes.len(),
        };
        if self.ranges.has_any(asked) {
            return Err(Refusal::Fenced);
        }
        self.below.write(start, bytes)
    }
}
