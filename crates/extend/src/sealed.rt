// A layer over any board.
ghost use Rattle.std.specs.Prelude.{◌≡◌};
ghost use Rattle.std.proofs.Common.{ap};
ghost use Rattle.extend.specs.Seals.{all_fenced, sealed_image, sealed_lent, sealed_beneath, sealed_shows};
ghost use Rattle.extend.specs.SealedFacts.{sealed_few, sealed_standing};

use board::{Board, ReadBoard, check_range};
use datasheet::Refusal;

/// The cells of a board, all of them fenced: it can be read and not be written.
#[derive(Drop)]
pub struct Sealed<B> {
    below: B,
}

impl<B: ReadBoard> Sealed<B> {
    /// Seals a board.
    pub fn new(below: B) -> Sealed<B>
        ensures below { result.below ≡ below }
    {
        Sealed { below }
    }
}

impl<B: ReadBoard> ReadBoard for Sealed<B> {
    ghost image = { sealed_image B.image };

    ghost few = { λ s. sealed_few (B.image s.below) (B.few s.below) };

    ghost Lent = { B.Lent };

    ghost lent = { sealed_lent B.lent };

    // What stands below its board: no write that it accepts has a byte.
    ghost Beneath = { B.Beneath };

    ghost beneath = { sealed_beneath B.beneath };

    ghost shows = { sealed_shows B.shows };

    ghost shown = { λ s. ap all_fenced (B.shown s.below) };

    ghost put = { λ g _ _. g };

    ghost Place = { B.Place };

    ghost byte_at = { B.byte_at };

    ghost stands = { B.stands };

    ghost standing = { sealed_standing B.standing };

    fn size(&mut self) -> usize {
        self.below.size()
    }

    fn read(&mut self, start: usize, buffer: &mut [u8]) -> Result<(), Refusal> {
        self.below.read(start, buffer)
    }
}

impl<B: ReadBoard> Board for Sealed<B> {
    fn first_fence(&mut self, start: usize, count: usize) -> Result<Option<usize>, Refusal> {
        check_range(start, count, self.below.size())?;
        if count > 0 { Ok(Some(start)) } else { Ok(None) }
    }

    fn write(&mut self, start: usize, bytes: &[u8]) -> Result<(), Refusal> {
        check_range(start, bytes.len(), self.below.size())?;
        if bytes.is_empty() {
            Ok(())
        } else {
            Err(Refusal::Fenced)
        }
    }
}
