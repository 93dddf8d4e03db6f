//! Runs the chip script on standard input, of which it takes the first 4,096 bytes, on an MB85RS64VY with t 03h, f 02h,
//! memory and status zero. It writes the answer bytes; or, where the script has a fault, 7Eh, the number of the refusal and
//! the place of the kind byte in two bytes.
#![tactic(auto)]

use script_reports::{ANSWER_BYTES, SCRIPT_BYTES, Target, output};
use std::io;
use std::io::{Read, Write};

fn main(rt: HostRuntime) -> io::Result<()> {
    let mut input = [0; SCRIPT_BYTES];
    // An array, and reads that ask for all that is left of it: no memory can run out, and a message that fits loses no byte.
    // `usize` to `u64` has no `From`.
    let mut room = &mut input[..];
    let read = io::copy(&mut rt.stdin().take(SCRIPT_BYTES as u64), &mut room)?;
    let input = &input[..SCRIPT_BYTES.min(read as usize)];
    let mut bytes = [0; ANSWER_BYTES];
    let length = output(Target::Pins, input, &mut bytes);
    rt.stdout().write_all(&bytes[..length])
}
