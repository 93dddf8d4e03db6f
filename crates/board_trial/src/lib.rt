//! Trials of piles of boards.
//!
//! What it promises: a write through a pile of three changes the lent memory at the bottom in exactly the bytes that it names, as
//! its owner sees it; a pile of dumps, which nobody may write, reads like a pile of chips.
#![tactic(auto)]

ghost use Rattle.std.specs.Prelude.{◌≡◌, ◌+◌, length};
ghost use Rattle.board_model.specs.Results.{read_result, read_into, write_result, if_accepted};
ghost use Rattle.board_model.specs.Layers.{plain, windowed, base_of, patched};
ghost use Rattle.board_trial.specs.Piles.{piled, cell_in};
ghost use Rattle.board_trial.specs.Dumps.{dump_pile};

use board::{Board, Dump, Plain, ReadBoard};
use board_join::Join;
use board_model::Range;
use board_shield::Shield;
use board_window::Window;
use datasheet::Refusal;

/// Writes bytes through a window of `count` cells from `offset` on over a board.
fn write_in_window<B: Board>(
    below: &mut B,
    offset: usize,
    count: usize,
    start: usize,
    bytes: &[u8],
) -> Result<(), Refusal>
    ensures answer { result ≡ write_result (windowed offset count (B.image below.old)) start bytes.now }
    ensures beneath { B.beneath below.new ≡
        if_accepted (write_result (windowed offset count (B.image below.old)) start bytes.now)
        (B.put (B.beneath below.old) (base_of offset (B.image below.old) + start) bytes.now)
        (B.beneath below.old) }
    ensures lent { B.lent below.new ≡ B.lent below.old }
{
    let mut window = Window::new(below, offset, count);
    window.write(start, bytes)
}

/// The same through a window over a shield of one range over the board.
fn write_in_pile<B: Board>(
    below: &mut B,
    fenced: Range,
    offset: usize,
    count: usize,
    start: usize,
    bytes: &[u8],
) -> Result<(), Refusal>
    ensures answer { result ≡ write_result (piled fenced offset count (B.image below.old)) start bytes.now }
    ensures beneath { B.beneath below.new ≡
        if_accepted (write_result (piled fenced offset count (B.image below.old)) start bytes.now)
        (B.put (B.beneath below.old) (cell_in fenced offset (B.image below.old) start) bytes.now)
        (B.beneath below.old) }
    ensures lent { B.lent below.new ≡ B.lent below.old }
{
    let mut shield = Shield::new(below);
    // a new shield has room for a range
    let _ = shield.add(fenced);
    write_in_window(&mut shield, offset, count, start, bytes)
}

/// Writes bytes through a pile of three over lent memory: the memory as a board, a shield of one range over it, and over that
/// a window of `count` cells from `offset` on; `start` is a place of the window. It is refused as a write to a board is, and the
/// memory then stays as it is.
pub fn write_through(
    memory: &mut [u8],
    fenced: Range,
    offset: usize,
    count: usize,
    start: usize,
    bytes: &[u8],
) -> Result<(), Refusal>
    ensures answer { result ≡ write_result (piled fenced offset count (plain memory.old)) start bytes.now }
    ensures memory { memory.new ≡
        if_accepted (write_result (piled fenced offset count (plain memory.old)) start bytes.now)
        (patched memory.old (cell_in fenced offset (plain memory.old) start) bytes.now)
        memory.old }
{
    let mut board = Plain::new(memory);
    write_in_pile(&mut board, fenced, offset, count, start, bytes)
}

/// Reads through a pile of dumps: two of them joined, a shield of one range over the join, and over that a window of `count`
/// cells from `offset` on; `start` is a place of the window. What the shield fences is read all the same.
pub fn read_through(
    lower: &[u8],
    upper: &[u8],
    fenced: Range,
    offset: usize,
    count: usize,
    start: usize,
    buffer: &mut [u8],
) -> Result<(), Refusal>
    ensures answer { result ≡
        read_result (dump_pile fenced offset count lower.now upper.now) start (length buffer.old) }
    ensures filled { buffer.new ≡
        read_into (dump_pile fenced offset count lower.now upper.now) start buffer.old }
{
    let mut shield = Shield::new(Join::new(Dump::new(lower), Dump::new(upper)));
    // a new shield has room for a range
    let _ = shield.add(fenced);
    let mut window = Window::new(shield, offset, count);
    window.read(start, buffer)
}

#[cfg(test)]
mod tests {
    use super::*;

    /// What a write through the pile is answered: cells 2 to 6 of the memory show, of which 5 is fenced.
    fn written(memory: &mut [u8], start: usize, bytes: &[u8]) -> Result<(), Refusal> {
        let fenced = Range { start: 5, count: 1 };
        write_through(memory, fenced, 2, 5, start, bytes)
    }

    #[test]
    fn a_write_through_a_pile_of_three(rt: HostRuntime) {
        let mut memory = [0; 8];
        assert_eq!(rt; written(&mut memory, 1, &[0xAA, 0xBB]), Ok(()));
        assert_eq!(rt; written(&mut memory, 2, &[1, 2]), Err(Refusal::Fenced));
        assert_eq!(rt; written(&mut memory, 4, &[1, 2]), Err(Refusal::OutOfRange));
        assert_eq!(rt; written(&mut memory, 4, &[0xCC]), Ok(()));
        assert_eq!(rt; memory, [0, 0, 0, 0xAA, 0xBB, 0, 0xCC, 0]);
    }

    #[test]
    fn a_dump_is_read(rt: HostRuntime) {
        assert_eq!(rt; Dump::new(&[]).size(), 0);
        let bytes = [0x27, 0x94, 0x27, 0x9C];
        let mut dump = Dump::new(&bytes);
        let mut seen = [0; 2];
        assert_eq!(rt; dump.size(), 4);
        assert_eq!(rt; dump.read(2, &mut seen), Ok(()));
        assert_eq!(rt; seen, [0x27, 0x9C]);
        assert_eq!(rt; dump.read(3, &mut seen), Err(Refusal::OutOfRange));
        assert_eq!(rt; seen, [0x27, 0x9C]);
    }

    #[test]
    fn a_pile_of_dumps_is_read(rt: HostRuntime) {
        let lower = [1, 2, 3, 4];
        let upper = [5, 6, 7, 8];
        let fenced = Range { start: 3, count: 2 };
        let mut seen = [0; 3];
        assert_eq!(rt;
            read_through(&lower, &upper, fenced, 2, 5, 1, &mut seen),
            Ok(())
        );
        assert_eq!(rt; seen, [4, 5, 6]);
        assert_eq!(rt;
            read_through(&lower, &upper, fenced, 2, 5, 3, &mut seen),
            Err(Refusal::OutOfRange)
        );
        assert_eq!(rt; seen, [4, 5, 6]);
    }
}
