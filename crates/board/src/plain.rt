ghost use Rattle.std.specs.Prelude.{◌≡◌, ℕ, List, take, slice_get, refl};
ghost use Rattle.std.specs.Borrow.{GName};
ghost use Rattle.board_model.specs.Images.{most};
ghost use Rattle.board_model.specs.Results.{write_result};
ghost use Rattle.board_model.specs.Layers.{plain, patched};
ghost use Rattle.board.specs.Plains.{plain_image, memory_after};
ghost use Rattle.board_model.proofs.Plains.{plain_few, plain_standing};

use crate::cells::{cells, read_cells};
use crate::{Board, ReadBoard, check_range};
use datasheet::Refusal;

/// Plain memory: the first 1,048,576 bytes of lent memory, all free.
#[derive(Drop)]
pub struct Plain<'m> {
    memory: &'m mut [u8],
}

impl<'m> Plain<'m> {
    /// A board over lent memory.
    pub fn new(memory: &'m mut [u8]) -> Plain<'m>
        ensures memory { result.memory.now ≡ memory.old }
        ensures lent { result.memory.ghost_name ≡ memory.entry.ghost_name }
    {
        Plain { memory }
    }

    /// The bytes that are cells.
    fn cells(&self) -> &[u8]
        ensures { result.now ≡ take most self.now.memory.now }
    {
        cells(self.memory)
    }
}

impl ReadBoard for Plain<'_> {
    ghost image = { plain_image };

    ghost few = { λ s. plain_few s.memory.now };

    ghost Lent = { GName };

    ghost lent = { λ s. s.memory.ghost_name };

    // The lent bytes, those past the limit too.
    ghost Beneath = { List ℕ };

    ghost beneath = { λ s. s.memory.now };

    ghost shows = { plain };

    ghost shown = { λ s. refl };

    ghost put = { patched };

    // A cell's byte stands at its own place of the memory.
    ghost Place = { ℕ };

    ghost byte_at = { slice_get };

    ghost stands = { λ _ cell. cell };

    ghost standing = { plain_standing };

    fn size(&mut self) -> usize {
        self.cells().len()
    }

    fn read(&mut self, start: usize, buffer: &mut [u8]) -> Result<(), Refusal> {
        read_cells(self.cells(), start, buffer)
    }
}

impl Board for Plain<'_> {
    fn first_fence(&mut self, start: usize, count: usize) -> Result<Option<usize>, Refusal> {
        check_range(start, count, self.cells().len())?;
        Ok(None)
    }

    fn write(&mut self, start: usize, bytes: &[u8]) -> Result<(), Refusal> {
        check_range(start, bytes.len(), self.cells().len())?;
        self.memory[start..start + bytes.len()].copy_from_slice(bytes);
        Ok(())
    }
}

/// Writes bytes into lent memory as to a board over it; what the memory holds then is known to its owner, and bytes past the
/// limit are untouched.
pub fn write_plain(memory: &mut [u8], start: usize, bytes: &[u8]) -> Result<(), Refusal>
    ensures answer { result ≡ write_result (plain memory.old) start bytes.now }
    ensures memory { memory.new ≡ memory_after memory.old start bytes.now }
{
    let mut board = Plain::new(memory);
    board.write(start, bytes)
}
