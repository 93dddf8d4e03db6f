use datasheet::{Course, Level, Registers};

/// An open session: the last level of SCK, its course, what is kept of its bits, and what SO shows while it runs.
#[derive(Clone, Copy, Debug, PartialEq, Eq)]
pub struct Session {
    pub sck: bool,
    pub course: Course,
    pub kept: Registers,
    pub so: Level,
}
