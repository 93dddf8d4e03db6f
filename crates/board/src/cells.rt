// The bytes of a memory that are cells of the board over it.
ghost use Rattle.std.specs.Prelude.{◌≡◌, length, map, take};
ghost use Rattle.board_model.specs.Images.{most, free};
ghost use Rattle.board_model.specs.Results.{read_result, read_into};

use crate::{MOST, check_range};
use datasheet::Refusal;

/// The bytes that are cells: the first 1,048,576.
pub(crate) fn cells(memory: &[u8]) -> &[u8]
    ensures { result.now ≡ take most memory.now }
{
    &memory[..MOST.min(memory.len())]
}

/// Fills the buffer with the bytes of these cells from `start` on; a refused read leaves it.
pub(crate) fn read_cells(cells: &[u8], start: usize, buffer: &mut [u8]) -> Result<(), Refusal>
    ensures answer { result ≡ read_result (map free cells.now) start (length buffer.old) }
    ensures filled { buffer.new ≡ read_into (map free cells.now) start buffer.old }
{
    check_range(start, buffer.len(), cells.len())?;
    buffer.copy_from_slice(&cells[start..start + buffer.len()]);
    Ok(())
}
