//! Script runs. A script is a row of steps; a run reads the whole script, checks the answer buffer, and then carries out
//! all steps, on a chip, on a board, or on a reading board, which takes sizes and reads alone.
//!
//! What it promises: result, chip or image, and every byte of the buffer are the definition's value, for every script; and a
//! board run leaves all fences, the bytes of fenced cells, and the cells that no write names. A run over a reading board leaves all
//! of it, and comes to what it would come to on any board of the same bytes.
#![tactic(auto)]

mod run;
mod visit;

pub use run::{Counts, board_run, chip_run, read_run};
pub use visit::chip_visit;
