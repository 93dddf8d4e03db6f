//! Boards: anything that means an image. A reading board has size and read; a board can be asked for fences and written too.
//! The lowest of them are a dump, which is memory held for reading, and plain memory.
//!
//! What it promises: each call of a board answers and leaves what the definitions say of its image; it leaves all that stands
//! below the board, but for what an accepted write puts there; a refused call leaves the buffer; and no call changes what a
//! board was given.
#![tactic(auto)]

ghost use Rattle.std.specs.Prelude.{◌≡◌, ℕ, ◌≤◌, List, length, Option};
ghost use Rattle.board_model.specs.Images.{Image, most};
ghost use Rattle.board_model.specs.Results.{range_result, fence_result, read_result, read_into, write_result, if_accepted, written};
ghost use Rattle.board_model.specs.Beneath.{Standing};
ghost use Rattle.std.specs.Borrow.{GName};

mod cells;
mod dump;
mod plain;

use datasheet::Refusal;
pub use dump::Dump;
pub use plain::{Plain, write_plain};

/// The most cells that a board has.
pub const MOST: usize = 1_048_576;

/// Refuses `count` places from `start` on that do not all lie in a board of this size.
pub fn check_range(start: usize, count: usize, size: usize) -> Result<(), Refusal>
    ensures { result ≡ range_result size start count }
{
    if start <= size && count <= size - start {
        Ok(())
    } else {
        Err(Refusal::OutOfRange)
    }
}

/// A reading board: it means a whole image, the fences too, and its calls leave all of it, what stands below it, and what it was
/// given. An impl that says more repeats these clauses, since its own replace the trait's.
pub trait ReadBoard {
    // The cells in order, at most 1,048,576.
    ghost image: { Self → Image };

    ghost few: { (s : Self) → length (image s) ≤ most };

    // What it was given when it was made: no call puts another in the place of it.
    ghost Lent: { Type 0 };

    ghost lent: { Self → Lent };

    // All that stands below it, of any type: whatever it was given or lent, as far as a call could change it. What an
    // implementation leaves out of this is promised by nothing.
    ghost Beneath: { Type 0 };

    ghost beneath: { Self → Beneath };

    // The image, by what stands below.
    ghost shows: { Beneath → Image };

    ghost shown: { (s : Self) → image s ≡ shows (beneath s) };

    // What an accepted write from a start on makes of what stands below. It is a part of what the image means, also where there
    // is no call that writes: a board that is fenced throughout accepts no byte, and so puts nothing.
    ghost put: { Beneath → ℕ → List ℕ → Beneath };

    // Where a byte may stand below, the byte that stands there, and where that of a cell does.
    ghost Place: { Type 0 };

    ghost byte_at: { Beneath → Place → Option ℕ };

    ghost stands: { Beneath → ℕ → Place };

    ghost standing: { Standing shows put byte_at stands };

    /// The number of cells.
    fn size(&mut self) -> usize
        ensures answer { result ≡ length (image self.old) }
        ensures few { result ≤ most }
        ensures same { image self.new ≡ image self.old }
        ensures beneath { beneath self.new ≡ beneath self.old }
        ensures lent { lent self.new ≡ lent self.old };

    /// Fills the buffer with the bytes from `start` on; a refused read leaves it.
    fn read(&mut self, start: usize, buffer: &mut [u8]) -> Result<(), Refusal>
        ensures answer { result ≡ read_result (image self.old) start (length buffer.old) }
        ensures filled { buffer.new ≡ read_into (image self.old) start buffer.old }
        ensures same { image self.new ≡ image self.old }
        ensures beneath { beneath self.new ≡ beneath self.old }
        ensures lent { lent self.new ≡ lent self.old };
}

/// A board that can be written too. What a write makes of the image, and of what stands below, is said by the meaning that the
/// board has as a reading board.
pub trait Board: ReadBoard {
    /// The first fenced place among `count` places from `start` on: asked in the shape of a read and a write, whose count is the
    /// length of what they take, and so by no `Range`.
    fn first_fence(&mut self, start: usize, count: usize) -> Result<Option<usize>, Refusal>
        ensures answer { result ≡ fence_result (Self.image self.old) start count }
        ensures same { Self.image self.new ≡ Self.image self.old }
        ensures beneath { Self.beneath self.new ≡ Self.beneath self.old }
        ensures lent { Self.lent self.new ≡ Self.lent self.old };

    /// Puts all bytes from `start` on, or none.
    fn write(&mut self, start: usize, bytes: &[u8]) -> Result<(), Refusal>
        ensures answer { result ≡ write_result (Self.image self.old) start bytes.now }
        ensures after { Self.image self.new ≡ written (Self.image self.old) start bytes.now }
        ensures beneath { Self.beneath self.new ≡
            if_accepted (write_result (Self.image self.old) start bytes.now)
            (Self.put (Self.beneath self.old) start bytes.now) (Self.beneath self.old) }
        ensures lent { Self.lent self.new ≡ Self.lent self.old };
}

// A board that is lent is a board.
impl<B: ReadBoard> ReadBoard for &mut B {
    ghost image = { λ s. B.image s.now };

    ghost few = { λ s. B.few s.now };

    ghost Lent = { GName × B.Lent };

    ghost lent = { λ s. (s.ghost_name, B.lent s.now) };

    ghost Beneath = { B.Beneath };

    ghost beneath = { λ s. B.beneath s.now };

    ghost shows = { B.shows };

    ghost shown = { λ s. B.shown s.now };

    ghost put = { B.put };

    ghost Place = { B.Place };

    ghost byte_at = { B.byte_at };

    ghost stands = { B.stands };

    ghost standing = { B.standing };

    fn size(&mut self) -> usize {
        (**self).size()
    }

    fn read(&mut self, start: usize, buffer: &mut [u8]) -> Result<(), Refusal> {
        (**self).read(start, buffer)
    }
}

impl<B: Board> Board for &mut B {
    fn first_fence(&mut self, start: usize, count: usize) -> Result<Option<usize>, Refusal> {
        (**self).first_fence(start, count)
    }

    fn write(&mut self, start: usize, bytes: &[u8]) -> Result<(), Refusal> {
        (**self).write(start, bytes)
    }
}
