ghost use Rattle.std.specs.Prelude.{◌≡◌, ℕ, List, slice_get, refl};
ghost use Rattle.board_model.specs.Layers.{dumped};
ghost use Rattle.board_model.proofs.Dumps.{dump_few, dump_standing};
ghost use Rattle.board.specs.Dumps.{dump_image};

use crate::ReadBoard;
use crate::cells::{cells, read_cells};
use datasheet::Refusal;

/// A dump: memory that was read off a board and that nobody may write. Its first 1,048,576 bytes are cells, all of them fenced.
#[derive(Drop)]
pub struct Dump<'m> {
    memory: &'m [u8],
}

impl<'m> Dump<'m> {
    /// A reading board over memory that is held for reading.
    pub fn new(memory: &'m [u8]) -> Dump<'m>
        ensures memory { result.memory.now ≡ memory.now }
        ensures image { ⟦<Dump<'static> as ReadBoard>⟧.image result ≡ dumped memory.now }
    {
        Dump { memory }
    }
}

impl ReadBoard for Dump<'_> {
    ghost image = { dump_image };

    ghost few = { λ s. dump_few s.memory.now };

    // Nothing is lent that could be put in the place of another: what it reads stands below it.
    ghost Lent = { Unit {0} };

    ghost lent = { λ _. tt };

    // The bytes that it reads, those past the limit too.
    ghost Beneath = { List ℕ };

    ghost beneath = { λ s. s.memory.now };

    ghost shows = { dumped };

    ghost shown = { λ s. refl };

    // No write that it accepts has a byte.
    ghost put = { λ memory _ _. memory };

    // A cell's byte stands at its own place of the memory.
    ghost Place = { ℕ };

    ghost byte_at = { slice_get };

    ghost stands = { λ _ cell. cell };

    ghost standing = { dump_standing };

    fn size(&mut self) -> usize {
        cells(self.memory).len()
    }

    fn read(&mut self, start: usize, buffer: &mut [u8]) -> Result<(), Refusal> {
        read_cells(cells(self.memory), start, buffer)
    }
}
