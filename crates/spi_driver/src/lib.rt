//! The driver: any bus that keeps its meaning as a board. It holds no cells: its image is the memory of the chip behind the bus.
//!
//! What it promises: that of a board, for the cells of the chip, the protected ones fenced, or none where the ID is not known;
//! and after each call no session is open, the chip is awake, its latch is 0 and its stored bits are as before.
#![tactic(auto)]

mod driver;
mod session;
mod survey;
mod transfers;

pub use driver::Driver;
pub use transfers::{TransferOutcome, transfer, transfer_over};
