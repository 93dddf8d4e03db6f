//! The terms of the data sheets of the SPI FRAM chips MB85RS64VY, MB85RS128TY and MB85RS256B, as types, with the
//! definitions that the contracts of every stage cite (specs/).
//!
//! What it promises: each call answers the value that its definition gives, and a sheet has d from 1 to 5 by its type.
#![tactic(auto)]

mod command;
mod course;
mod level;
mod part;
mod refusal;
mod registers;
mod sample;
mod sheet;

pub use command::Command;
pub use course::Course;
pub use level::Level;
pub use part::Part;
pub use refusal::Refusal;
pub use registers::Registers;
pub use sample::Sample;
pub use sheet::{Marks, Sheet};
