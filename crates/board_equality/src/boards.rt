// Two boards compared by few calls: the fences from one to the next, the bytes in chunks.
ghost use Rattle.std.specs.Prelude.{◌≡◌, ◌≤◌, length, Decides};
ghost use Rattle.board_model.specs.Images.{bytes_of, part};
ghost use Rattle.board_equality.specs.Sides.{fences_of, Kept};

use board::{Board, ReadBoard};

/// How many bytes are read at once.
const CHUNK: usize = 32;

/// The fenced places of a board from `start` on, in order.
#[derive(Drop)]
struct Fences<B: ReadBoard> {
    board: B,
    start: usize,
    size: usize,
    ghost sized: { length (B.image board) ≡ size },
    ghost inside: { start ≤ size },
}

impl<B: ReadBoard> Fences<B> {
    /// The fences of a board of this size.
    fn of(board: B, size: usize) -> Self
        requires sized { length (B.image board) ≡ size }
        ensures board { result.board ≡ board }
        ensures size { result.size ≡ size }
        ensures start { result.start ≡ 0 }
    {
        Fences {
            board,
            start: 0,
            size,
        }
    }
}

impl<B: Board + Drop> Iterator for Fences<B> {
    ghost use Rattle.std.specs.Prelude.{◌-◌};
    ghost use Rattle.std.specs.Iterator.{at_most};
    ghost use Rattle.board_equality.specs.Fences.{NextFence};

    type Item = usize;

    ghost remaining = { λ s. at_most (s.size - s.start) };

    ghost next_gives = { NextFence };

    #[tactic(auto, using(crate::proofs::Sides::hops))]
    fn next(&mut self) -> Option<usize> {
        let count = self.size - self.start;
        let place = self.board.first_fence(self.start, count).unwrap()?;
        self.start = place + 1;
        Some(place)
    }
}

/// Two boards of one size.
#[derive(Drop)]
struct Pair<P: ReadBoard, Q: ReadBoard> {
    left: P,
    right: Q,
    size: usize,
    ghost left_sized: { length (P.image left) ≡ size },
    ghost right_sized: { length (Q.image right) ≡ size },
}

impl<P: ReadBoard, Q: ReadBoard> Pair<P, Q> {
    ghost use Rattle.board_equality.specs.Pairs.{Untouched};

    /// Whether the boards have the same bytes from `start` on, as far as a chunk reaches.
    fn same_chunk(&mut self, start: usize) -> bool
        requires inside { start ≤ self.old.size }
        ensures exact { Decides result
            (bytes_of (part (P.image self.old.left) start CHUNK) ≡ bytes_of (part (Q.image self.old.right) start CHUNK)) }
        ensures kept { Untouched self.old self.new }
    {
        let count = CHUNK.min(self.size - start);
        let left = &mut [0; CHUNK][..count];
        let right = &mut [0; CHUNK][..count];
        let _ = self.left.read(start, left);
        let _ = self.right.read(start, right);
        *left == *right
    }

    /// Whether the boards have the same bytes.
    fn same_bytes(&mut self) -> bool
        ensures exact { Decides result (bytes_of (P.image self.old.left) ≡ bytes_of (Q.image self.old.right)) }
        ensures kept { Untouched self.old self.new }
    {
        // tried by `all`: it does not say how it leaves the boards that its closure borrows
        for start in (0..self.size).step_by(CHUNK) {
            if !self.same_chunk(start) {
                return false;
            }
        }
        true
    }
}

impl<P: Board, Q: Board> Pair<P, Q> {
    ghost use Rattle.board_equality.specs.Pairs.{Untouched};

    /// Whether the boards have the same fences.
    #[tactic(auto, using(crate::proofs::Sides::hops))]
    fn same_fences(&mut self) -> bool
        ensures exact { Decides result (fences_of (P.image self.old.left) ≡ fences_of (Q.image self.old.right)) }
        ensures kept { Untouched self.old self.new }
    {
        // tried by `Iterator::eq`: it does not say how it leaves the boards that its iterators hold
        let mut right = Fences::of(&mut self.right, self.size);
        for place in Fences::of(&mut self.left, self.size) {
            if right.next() != Some(place) {
                return false;
            }
        }
        right.next().is_none()
    }
}

/// Whether two boards have the same image, found out by calls alone.
#[tactic(auto, using(crate::proofs::Sides::sides_same))]
pub(crate) fn same_image<P: Board, Q: Board>(left: &mut P, right: &mut Q) -> bool
    ensures exact { Decides result (P.image left.old ≡ Q.image right.old) }
    ensures left { Kept P.ReadBoard left.old left.new }
    ensures right { Kept Q.ReadBoard right.old right.new }
{
    let size = left.size();
    if right.size() != size {
        return false;
    }
    let mut pair = Pair { left, right, size };
    pair.same_fences() && pair.same_bytes()
}

/// Whether two reading boards have as many cells and the same bytes, found out by calls alone.
#[tactic(auto, using(board_model::proofs::SizesAndReads::same_size))]
pub(crate) fn same_reading<P: ReadBoard, Q: ReadBoard>(left: &mut P, right: &mut Q) -> bool
    ensures exact { Decides result (bytes_of (P.image left.old) ≡ bytes_of (Q.image right.old)) }
    ensures left { Kept P.ReadBoard left.old left.new }
    ensures right { Kept Q.ReadBoard right.old right.new }
{
    let size = left.size();
    if right.size() != size {
        return false;
    }
    let mut pair = Pair { left, right, size };
    pair.same_bytes()
}
