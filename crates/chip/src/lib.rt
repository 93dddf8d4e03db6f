//! The chip at its pins: parked without power, or powered over lent memory.
//!
//! What it promises: every sample and every power cycle answers and leaves what the definitions say, a refused sample leaves
//! every field, and whoever lent the memory knows its bytes when power has been taken away.
#![tactic(auto)]

mod chip;
mod pins;
mod session;
mod status;
mod stored;

pub use chip::{Chip, ParkedChip};
pub use pins::{Pins, Stepped};
