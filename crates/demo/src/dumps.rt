// Dumps: memory that was read off a board and that nobody may write.
use crate::tell_cells;
use board::{Dump, Plain, ReadBoard};
use board_equality::agree;
use board_join::Join;
use board_window::Window;
use std::io;

/// Prints whether two reading boards agree in size and bytes.
fn tell_agreement<P: ReadBoard, Q: ReadBoard>(
    rt: &HostRuntime,
    left: &mut P,
    right: &mut Q,
) -> io::Result<()> {
    if agree(left, right) {
        println!(rt; "  they agree, no list of size and read tells them apart")
    } else {
        println!(rt; "  they do not agree, some list of size and read tells them apart")
    }
}

/// Two dumps piled up and read, and compared with plain memory that can be written.
pub(crate) fn tell_dumps(rt: &HostRuntime) -> io::Result<()> {
    println!(rt;
        "Two dumps of 16 bytes, which nobody may write, are joined, and a window of 8 cells from 12 on is read."
    )?;
    let lower = [0x11; 16];
    let upper = [0x22; 16];
    let join = Join::new(Dump::new(&lower), Dump::new(&upper));
    let mut pile = Window::new(join, 12, 8);
    tell_cells(rt, &mut pile)?;
    println!(rt; "")?;
    println!(rt; "The same 8 bytes in plain memory, which is free where the dumps are fenced.")?;
    let mut copy = [0x11, 0x11, 0x11, 0x11, 0x22, 0x22, 0x22, 0x22];
    tell_agreement(rt, &mut pile, &mut Plain::new(&mut copy))?;
    println!(rt; "One byte of the plain memory is another.")?;
    copy[7] = 0x23;
    tell_agreement(rt, &mut pile, &mut Plain::new(&mut copy))
}
