ghost use Rattle.std.specs.Prelude.{◌≡◌, Decides};
ghost use Rattle.datasheet.specs.Alike.{Alike};
ghost use Rattle.board_model.specs.Images.{bytes_of};
ghost use Rattle.board_model.specs.Calls.{Readable};
ghost use Rattle.board_equality.specs.Builds.{answers_of};
ghost use Rattle.board_equality.specs.Law.{Agreement};

use crate::boards::same_reading;
use board::ReadBoard;

/// Whether two reading boards, full boards or not, agree in size and bytes, found out by calls alone: exactly when no list of
/// sizes and reads tells them apart. What is fenced does not count: a dump agrees with the board that it was read off. Both are
/// left as they were, and what stands below them.
pub fn agree<P: ReadBoard, Q: ReadBoard>(left: &mut P, right: &mut Q) -> bool
    ensures exact { Decides result (bytes_of (P.image left.old) ≡ bytes_of (Q.image right.old)) }
    ensures untold { Decides result
        (Alike Readable (answers_of P.ReadBoard) (answers_of Q.ReadBoard) left.old right.old) }
    ensures left { P.image left.new ≡ P.image left.old }
    ensures right { Q.image right.new ≡ Q.image right.old }
    ensures beneath_left { P.beneath left.new ≡ P.beneath left.old }
    ensures beneath_right { Q.beneath right.new ≡ Q.beneath right.old }
    ensures lent_left { P.lent left.new ≡ P.lent left.old }
    ensures lent_right { Q.lent right.new ≡ Q.lent right.old }
    ensures law { Agreement P.ReadBoard Q.ReadBoard }
{
    same_reading(left, right)
}
