//! The trial cases: what a chip must show after what is sent to it.
//!
//! What it promises: the table is the one of the definitions, and by the definitions each of its rows is right, computed by the
//! checker; a test runs the same rows through the chip.
#![tactic(auto)]

ghost use Rattle.std.specs.Prelude.{◌≡◌, length, slice_get};
ghost use Rattle.std.specs.Option.{option_map};
ghost use Rattle.chip_trial.specs.Cases.{row_of};
ghost use Rattle.chip_trial.specs.Table.{table};
ghost use Rattle.chip_trial.specs.Laws.{TableRight};

mod sessions;
#[cfg(test)]
mod tests;

pub use datasheet::Part;
use sessions::*;

/// What HOLD does in a session.
#[derive(Clone, Copy, Debug, PartialEq, Eq)]
pub enum Hold {
    /// It stays high.
    High,
    /// Behind so many bits these samples are put, in which it falls and is let go.
    Amid {
        behind: usize,
        samples: &'static [u8],
    },
    /// It is low when CS falls with SCK low, and is let go with SCK high.
    LowAtTheStart,
}

/// A session put to the pins in SPI mode 0: the first `bits` bits of the bytes, and what HOLD does in it.
#[derive(Clone, Copy, Debug, PartialEq, Eq)]
pub struct TrialSession {
    pub bytes: &'static [u8],
    pub bits: usize,
    pub hold: Hold,
}

/// A byte that the chip must have put into a cell.
#[derive(Clone, Copy, Debug, PartialEq, Eq)]
pub struct Change {
    pub cell: usize,
    pub byte: u8,
}

/// A row at the pins: the part, powered over a memory of zeros with these stored bits; the sessions that are sent to it first;
/// the last session, and the bytes that must be read in it; and the cells that must have changed then.
#[derive(Clone, Copy, Debug, PartialEq, Eq)]
pub struct PinCase {
    pub part: Part,
    pub stored: u8,
    pub before: &'static [TrialSession],
    pub last: TrialSession,
    pub seen: &'static [u8],
    pub changed: &'static [Change],
}

/// WREN, WRSR 8Ch, RDSR: the latch stays on an MB85RS64VY
const LATCH_KEPT: PinCase = PinCase {
    part: Part::Mb85rs64vy,
    stored: 0,
    before: &[WREN, WRSR_8C],
    last: RDSR,
    seen: &[0xFF, 0x8E],
    changed: &[],
};

/// and falls on an MB85RS256B
const LATCH_DROPPED: PinCase = PinCase {
    part: Part::Mb85rs256b,
    stored: 0,
    before: &[WREN, WRSR_8C],
    last: RDSR,
    seen: &[0xFF, 0x8C],
    changed: &[],
};

/// WRITE of two bytes at the last cell: the second goes to cell 0
const ROLLS_OVER: PinCase = PinCase {
    part: Part::Mb85rs64vy,
    stored: 0,
    before: &[WREN, WRITE_AT_THE_END],
    last: READ_AT_THE_END,
    seen: &[0xFF, 0xFF, 0xFF, 0xAA, 0xBB],
    changed: &[
        Change {
            cell: 0x1FFF,
            byte: 0xAA,
        },
        Change {
            cell: 0,
            byte: 0xBB,
        },
    ],
};

/// WRITE across the edge of a protected quarter: the cell behind the edge is unchanged
const PROTECTED_EDGE: PinCase = PinCase {
    part: Part::Mb85rs64vy,
    stored: 0x04,
    before: &[WREN, WRITE_AT_THE_EDGE],
    last: READ_AT_THE_EDGE,
    seen: &[0xFF, 0xFF, 0xFF, 0xAA, 0],
    changed: &[Change {
        cell: 0x17FF,
        byte: 0xAA,
    }],
};

/// fifteen data bits change one cell
const FIFTEEN_BITS: PinCase = PinCase {
    part: Part::Mb85rs64vy,
    stored: 0,
    before: &[WREN, WRITE_FIFTEEN_BITS],
    last: READ_TWO,
    seen: &[0xFF, 0xFF, 0xFF, 0xAA, 0],
    changed: &[Change {
        cell: 0x0010,
        byte: 0xAA,
    }],
};

/// seven bits of WREN leave the latch 0
const SEVEN_BITS: PinCase = PinCase {
    part: Part::Mb85rs64vy,
    stored: 0,
    before: &[WREN_SEVEN_BITS],
    last: RDSR,
    seen: &[0xFF, 0x00],
    changed: &[],
};

/// SLEEP with nine bits does not sleep
const NINE_BITS: PinCase = PinCase {
    part: Part::Mb85rs64vy,
    stored: 0,
    before: &[SLEEP_NINE_BITS],
    last: RDSR,
    seen: &[0xFF, 0x00],
    changed: &[],
};

/// asleep, RDSR answers FF FF
const ASLEEP: PinCase = PinCase {
    part: Part::Mb85rs64vy,
    stored: 0,
    before: &[SLEEP],
    last: RDSR,
    seen: &[0xFF, 0xFF],
    changed: &[],
};

/// a second RDSR answers FF 00
const AWAKE_AGAIN: PinCase = PinCase {
    part: Part::Mb85rs64vy,
    stored: 0,
    before: &[SLEEP, RDSR],
    last: RDSR,
    seen: &[0xFF, 0x00],
    changed: &[],
};

/// HOLD let go at the other level of SCK inside an op-code: WREN does not set the latch
const LET_GO_IN_OP_CODE: PinCase = PinCase {
    part: Part::Mb85rs64vy,
    stored: 0,
    before: &[WREN_LET_GO],
    last: RDSR,
    seen: &[0xFF, 0x00],
    changed: &[],
};

/// inside an address: WRITE writes nothing
const LET_GO_IN_ADDRESS: PinCase = PinCase {
    part: Part::Mb85rs64vy,
    stored: 0,
    before: &[WREN, WRITE_LET_GO_IN_ADDRESS],
    last: READ_TWO,
    seen: &[0xFF, 0xFF, 0xFF, 0, 0],
    changed: &[],
};

/// inside the second data byte of WRITE: the first stands, and the second is not written
const LET_GO_IN_DATA: PinCase = PinCase {
    part: Part::Mb85rs64vy,
    stored: 0,
    before: &[WREN, WRITE_LET_GO_IN_DATA],
    last: READ_TWO,
    seen: &[0xFF, 0xFF, 0xFF, 0xAA, 0],
    changed: &[Change {
        cell: 0x0010,
        byte: 0xAA,
    }],
};

/// while RDSR shows the status: SO is high-Z from there on
const LET_GO_IN_STATUS: PinCase = PinCase {
    part: Part::Mb85rs64vy,
    stored: 0,
    before: &[WREN],
    last: RDSR_LET_GO_IN_STATUS,
    seen: &[0xFF, 0x0F],
    changed: &[],
};

/// behind the eight bits of SLEEP: the chip does not sleep
const LET_GO_BEHIND_SLEEP: PinCase = PinCase {
    part: Part::Mb85rs64vy,
    stored: 0,
    before: &[SLEEP_LET_GO],
    last: RDSR,
    seen: &[0xFF, 0x00],
    changed: &[],
};

/// in a session that began asleep: its end wakes the chip
const LET_GO_ASLEEP: PinCase = PinCase {
    part: Part::Mb85rs64vy,
    stored: 0,
    before: &[SLEEP, RDSR_LET_GO_IN_OP_CODE],
    last: RDSR,
    seen: &[0xFF, 0x00],
    changed: &[],
};

/// behind a WRSR on an MB85RS256B: the byte is stored, and the latch stays
const LET_GO_BEHIND_WRSR: PinCase = PinCase {
    part: Part::Mb85rs256b,
    stored: 0,
    before: &[WREN, WRSR_8C_LET_GO],
    last: RDSR,
    seen: &[0xFF, 0x8E],
    changed: &[],
};

/// HOLD low when CS falls, and let go at the other level of SCK: WREN does not set the latch
const LOW_WHEN_CS_FALLS: PinCase = PinCase {
    part: Part::Mb85rs64vy,
    stored: 0,
    before: &[WREN_LOW_AT_THE_START],
    last: RDSR,
    seen: &[0xFF, 0x00],
    changed: &[],
};

/// HOLD falls in the sample of a rise and is let go with SCK low: WREN does not set the latch
const LET_GO_LOW: PinCase = PinCase {
    part: Part::Mb85rs64vy,
    stored: 0,
    before: &[WREN_LET_GO_LOW],
    last: RDSR,
    seen: &[0xFF, 0x00],
    changed: &[],
};

/// HOLD falls in the sample of a rise, SCK moves meanwhile, and HOLD is released at the level of its fall: WREN sets the latch
const HELD_AND_RELEASED: PinCase = PinCase {
    part: Part::Mb85rs64vy,
    stored: 0,
    before: &[WREN_HELD],
    last: RDSR,
    seen: &[0xFF, 0x02],
    changed: &[],
};

/// CS rises in the sample that lets HOLD go at the other level, behind the eight bits of SLEEP: the session ends as ever, and the
/// chip sleeps
const CS_RISES_AT_RELEASE: PinCase = PinCase {
    part: Part::Mb85rs64vy,
    stored: 0,
    before: &[SLEEP_ENDED_AT_RELEASE],
    last: RDSR,
    seen: &[0xFF, 0xFF],
    changed: &[],
};

/// inside the second data byte of a WRITE on an MB85RS256B: the first stands, and the latch stays
const LET_GO_IN_WRITE: PinCase = PinCase {
    part: Part::Mb85rs256b,
    stored: 0,
    before: &[WREN, WRITE_LET_GO_IN_DATA],
    last: RDSR,
    seen: &[0xFF, 0x02],
    changed: &[Change {
        cell: 0x0010,
        byte: 0xAA,
    }],
};

/// A row of a window: a window of `count` cells from `offset` on, over plain memory of so many cells, and the size that it
/// must have.
#[derive(Clone, Copy, Debug, PartialEq, Eq)]
pub struct WindowCase {
    pub cells: usize,
    pub offset: usize,
    pub count: usize,
    pub size: usize,
}

/// three cells are left behind cell 5 of eight
const THREE_LEFT: WindowCase = WindowCase {
    cells: 8,
    offset: 5,
    count: 10,
    size: 3,
};

/// none is left behind the last
const NONE_LEFT: WindowCase = WindowCase {
    cells: 8,
    offset: 8,
    count: 10,
    size: 0,
};

/// A row of the table.
#[derive(Clone, Copy, Debug, PartialEq, Eq)]
pub enum Case {
    Pins(PinCase),
    Window(WindowCase),
}

/// How many rows the table has. By the definitions the chip of each row shows and keeps, or its window has, what the row says.
#[tactic(auto, using(crate::proofs::Table::table_right))]
pub fn case_count() -> usize
    ensures count { result ≡ length table }
    ensures law { TableRight }
{
    23
}

/// Row `i` of the table, from 0; none behind the last.
pub fn case_at(i: usize) -> Option<Case>
    ensures { option_map row_of result ≡ slice_get table i }
{
    // not a table read by `get`: its goal is one over all rows at once, which the check does not compute
    match i {
        0 => Some(Case::Pins(LATCH_KEPT)),
        1 => Some(Case::Pins(LATCH_DROPPED)),
        2 => Some(Case::Pins(ROLLS_OVER)),
        3 => Some(Case::Pins(PROTECTED_EDGE)),
        4 => Some(Case::Pins(FIFTEEN_BITS)),
        5 => Some(Case::Pins(SEVEN_BITS)),
        6 => Some(Case::Pins(NINE_BITS)),
        7 => Some(Case::Pins(ASLEEP)),
        8 => Some(Case::Pins(AWAKE_AGAIN)),
        9 => Some(Case::Pins(LET_GO_IN_OP_CODE)),
        10 => Some(Case::Pins(LET_GO_IN_ADDRESS)),
        11 => Some(Case::Pins(LET_GO_IN_DATA)),
        12 => Some(Case::Pins(LET_GO_IN_STATUS)),
        13 => Some(Case::Pins(LET_GO_BEHIND_SLEEP)),
        14 => Some(Case::Pins(LET_GO_ASLEEP)),
        15 => Some(Case::Pins(LET_GO_BEHIND_WRSR)),
        16 => Some(Case::Pins(LOW_WHEN_CS_FALLS)),
        17 => Some(Case::Pins(LET_GO_LOW)),
        18 => Some(Case::Pins(HELD_AND_RELEASED)),
        19 => Some(Case::Pins(CS_RISES_AT_RELEASE)),
        20 => Some(Case::Pins(LET_GO_IN_WRITE)),
        21 => Some(Case::Window(THREE_LEFT)),
        22 => Some(Case::Window(NONE_LEFT)),
        _ => None,
    }
}
