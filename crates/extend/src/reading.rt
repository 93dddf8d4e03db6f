// A stage over boards, with refusals of its own over those of the stage below.
ghost use Rattle.std.specs.Prelude.{◌≡◌};
ghost use Rattle.extend.specs.declared.reading.ReadingRefusal.TheVariants.{Board as OfBoard};
ghost use Rattle.extend.specs.Readings.{reading_number, reading_result};

use board::ReadBoard;
use datasheet::Refusal;
use thiserror::Error;

/// The byte of a cell that was never written.
const ERASED: u8 = 0xFF;

/// Why a cell gives no reading.
#[derive(Clone, Copy, Debug, PartialEq, Eq, Error)]
pub enum ReadingRefusal {
    /// the board refused the read
    #[error("{0}")]
    Board(Refusal),
    /// the cell holds FFh
    #[error("nothing was written into the cell")]
    Unwritten,
}

impl From<Refusal> for ReadingRefusal {
    ghost from_gives = { λ refusal outcome. outcome ≡ OfBoard refusal };

    fn from(refusal: Refusal) -> ReadingRefusal {
        ReadingRefusal::Board(refusal)
    }
}

// The number by which a refusal is known: that of the board's, or 200.
impl From<ReadingRefusal> for u8 {
    ghost from_gives = { λ refusal number. number ≡ reading_number refusal };

    fn from(refusal: ReadingRefusal) -> u8 {
        match refusal {
            ReadingRefusal::Board(refusal) => u8::from(refusal),
            ReadingRefusal::Unwritten => 200,
        }
    }
}

/// The byte at a place of a board. It is refused by 4 where the board has no such place, and then by 200 where the cell holds
/// FFh.
pub fn reading_at<B: ReadBoard>(board: &mut B, place: usize) -> Result<u8, ReadingRefusal>
    ensures answer { result ≡ reading_result (B.image board.old) place }
    ensures same { B.image board.new ≡ B.image board.old }
    ensures beneath { B.beneath board.new ≡ B.beneath board.old }
    ensures lent { B.lent board.new ≡ B.lent board.old }
{
    let mut bytes = [0; 1];
    board.read(place, &mut bytes)?;
    match bytes {
        [ERASED] => Err(ReadingRefusal::Unwritten),
        [byte] => Ok(byte),
    }
}
