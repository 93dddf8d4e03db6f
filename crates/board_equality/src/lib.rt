//! Equality: two chips, or two boards, are equal exactly when nothing that can be sent to them tells them apart.
//!
//! What it promises: `compare` decides it for two chips and two boards, by calls alone on the boards, and leaves all four as they
//! were, and what stands below the boards; its contract names the law, whole. `agree` decides for two reading boards, in the same
//! way, whether they agree in size and bytes.
#![tactic(auto)]

mod boards;
mod both;
mod reading;

pub use both::{Same, compare};
pub use reading::agree;
