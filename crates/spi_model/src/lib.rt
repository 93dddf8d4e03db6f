//! SPI: the terms of byte buses as types (a call, its answer, a turn of both, the mode), with the definitions of what a bus means
//! and of the samples that a line puts (specs/), and the proofs of the laws that tie the two together (proofs/).
//!
//! What it promises: the samples of a line do to a chip what the calls of a bus do to its meaning, in both modes and with any
//! number of held samples; and a byte taken at once is its eight bits. The calls of the buses name these laws.
#![tactic(auto)]

mod bus_answer;
mod bus_call;
mod bus_turn;
mod mode;

pub use bus_answer::BusAnswer;
pub use bus_call::BusCall;
pub use bus_turn::BusTurn;
pub use mode::Mode;

/// The byte that is read while SO is not driven: all eight levels are high-Z, and each is read as 1.
pub const NOT_DRIVEN: u8 = 0xFF;
