//! A shield: a board with further cells fenced.
//!
//! What it promises: that of a board, with the cells of its ranges fenced besides; a ninth range is refused, and widening
//! changes the range in the table itself.
#![tactic(auto)]

mod layer;
mod ranges;

pub use layer::Shield;
pub use ranges::Ranges;
