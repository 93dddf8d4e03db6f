//! The terms of boards as types, with the definitions of what a board holds and answers (specs/).
//!
//! What it promises: two boards have equal images exactly when no list of calls that can be sent tells them apart;
//! `board_equality` takes it up.
#![tactic(auto)]

/// One place of a board: its byte, and whether it is fenced, that is kept from being written.
#[derive(Clone, Copy, Debug, PartialEq, Eq)]
pub struct Cell {
    pub byte: u8,
    pub fenced: bool,
}

/// A range of places: `count` places from `start` on. It may be empty, or lie past the size of a board.
#[derive(Clone, Copy, Debug, PartialEq, Eq)]
pub struct Range {
    pub start: usize,
    pub count: usize,
}
