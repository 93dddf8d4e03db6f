ghost use Rattle.std.specs.Prelude.{◌≡◌, Decides};
ghost use Rattle.datasheet.specs.Alike.{Alike};
ghost use Rattle.datasheet.specs.Calls.{Sendable as ChipSendable, answers as chip_answers};
ghost use Rattle.datasheet.specs.Kept.{bounded};
ghost use Rattle.chip.specs.Views.{record_of, chip_of, Resting};
ghost use Rattle.board_model.specs.Calls.{Sendable as BoardSendable};
ghost use Rattle.board_equality.specs.Builds.{answers_of};
ghost use Rattle.board_equality.specs.Law.{Equality};

use crate::boards::same_image;
use board::Board;
use chip::Chip;

/// Whether the two chips, and the two boards, are equal.
#[derive(Clone, Copy, Debug, PartialEq, Eq)]
pub struct Same {
    /// their records are equal
    pub chips: bool,
    /// their images are equal
    pub boards: bool,
}

/// Compares two chips and two boards, the boards by calls alone, and leaves all four as they were, and what stands below the
/// boards. Two resting chips of one sheet are the same exactly when no list of samples and power cycles that can be sent tells
/// them apart, and two boards of any builds exactly when no list of sizes, fence questions, reads and writes does.
pub fn compare<P: Board, Q: Board>(
    first: &Chip<'_>,
    second: &Chip<'_>,
    left: &mut P,
    right: &mut Q,
) -> Same
    ensures chips { Decides result.chips (record_of first.now ≡ record_of second.now) }
    ensures chips_untold { Resting first.now → Resting second.now → first.now.sheet ≡ second.now.sheet →
        Decides result.chips (Alike ChipSendable (chip_answers bounded) (chip_answers bounded) (chip_of first.now) (chip_of second.now)) }
    ensures boards { Decides result.boards (P.image left.old ≡ Q.image right.old) }
    ensures boards_untold { Decides result.boards
        (Alike BoardSendable (answers_of P.ReadBoard) (answers_of Q.ReadBoard) left.old right.old) }
    ensures left { P.image left.new ≡ P.image left.old }
    ensures right { Q.image right.new ≡ Q.image right.old }
    ensures beneath_left { P.beneath left.new ≡ P.beneath left.old }
    ensures beneath_right { Q.beneath right.new ≡ Q.beneath right.old }
    ensures lent_left { P.lent left.new ≡ P.lent left.old }
    ensures lent_right { Q.lent right.new ≡ Q.lent right.old }
    ensures law { Equality P.ReadBoard Q.ReadBoard }
{
    let chips = first.same_record(second);
    let boards = same_image(left, right);
    Same { chips, boards }
}
