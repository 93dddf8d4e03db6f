// The sessions of the rows.
use crate::{Hold, TrialSession};

pub(crate) const WREN: TrialSession = TrialSession {
    bytes: &[0x06],
    bits: 8,
    hold: Hold::High,
};

pub(crate) const WREN_SEVEN_BITS: TrialSession = TrialSession {
    bytes: &[0x06],
    bits: 7,
    hold: Hold::High,
};

pub(crate) const WRSR_8C: TrialSession = TrialSession {
    bytes: &[0x01, 0x8C],
    bits: 16,
    hold: Hold::High,
};

pub(crate) const RDSR: TrialSession = TrialSession {
    bytes: &[0x05, 0],
    bits: 16,
    hold: Hold::High,
};

pub(crate) const SLEEP: TrialSession = TrialSession {
    bytes: &[0xB9],
    bits: 8,
    hold: Hold::High,
};

pub(crate) const SLEEP_NINE_BITS: TrialSession = TrialSession {
    bytes: &[0xB9, 0],
    bits: 9,
    hold: Hold::High,
};

pub(crate) const WRITE_AT_THE_END: TrialSession = TrialSession {
    bytes: &[0x02, 0x1F, 0xFF, 0xAA, 0xBB],
    bits: 40,
    hold: Hold::High,
};

pub(crate) const READ_AT_THE_END: TrialSession = TrialSession {
    bytes: &[0x03, 0x1F, 0xFF, 0, 0],
    bits: 40,
    hold: Hold::High,
};

pub(crate) const WRITE_AT_THE_EDGE: TrialSession = TrialSession {
    bytes: &[0x02, 0x17, 0xFF, 0xAA, 0xBB],
    bits: 40,
    hold: Hold::High,
};

pub(crate) const READ_AT_THE_EDGE: TrialSession = TrialSession {
    bytes: &[0x03, 0x17, 0xFF, 0, 0],
    bits: 40,
    hold: Hold::High,
};

pub(crate) const WRITE_TWO: TrialSession = TrialSession {
    bytes: &[0x02, 0x00, 0x10, 0xAA, 0xBB],
    bits: 40,
    hold: Hold::High,
};

pub(crate) const WRITE_FIFTEEN_BITS: TrialSession = TrialSession {
    bits: 39,
    ..WRITE_TWO
};

pub(crate) const READ_TWO: TrialSession = TrialSession {
    bytes: &[0x03, 0x00, 0x10, 0, 0],
    bits: 40,
    hold: Hold::High,
};

/// HOLD falls with SCK low and is let go with SCK high; then SCK falls.
pub(crate) const LET_GO: &[u8] = &[0x08, 0x0A, 0x1A, 0x18];

pub(crate) const WREN_LET_GO: TrialSession = TrialSession {
    hold: Hold::Amid {
        behind: 4,
        samples: LET_GO,
    },
    ..WREN
};

pub(crate) const WREN_LOW_AT_THE_START: TrialSession = TrialSession {
    hold: Hold::LowAtTheStart,
    ..WREN
};

pub(crate) const WRSR_8C_LET_GO: TrialSession = TrialSession {
    hold: Hold::Amid {
        behind: 16,
        samples: LET_GO,
    },
    ..WRSR_8C
};

pub(crate) const RDSR_LET_GO_IN_OP_CODE: TrialSession = TrialSession {
    hold: Hold::Amid {
        behind: 4,
        samples: LET_GO,
    },
    ..RDSR
};

pub(crate) const RDSR_LET_GO_IN_STATUS: TrialSession = TrialSession {
    hold: Hold::Amid {
        behind: 12,
        samples: LET_GO,
    },
    ..RDSR
};

pub(crate) const SLEEP_LET_GO: TrialSession = TrialSession {
    hold: Hold::Amid {
        behind: 8,
        samples: LET_GO,
    },
    ..SLEEP
};

pub(crate) const WRITE_LET_GO_IN_ADDRESS: TrialSession = TrialSession {
    hold: Hold::Amid {
        behind: 16,
        samples: LET_GO,
    },
    ..WRITE_TWO
};

pub(crate) const WRITE_LET_GO_IN_DATA: TrialSession = TrialSession {
    hold: Hold::Amid {
        behind: 36,
        samples: LET_GO,
    },
    ..WRITE_TWO
};

pub(crate) const WREN_LET_GO_LOW: TrialSession = TrialSession {
    hold: Hold::Amid {
        behind: 7,
        samples: &[0x0A, 0x18],
    },
    ..WREN
};

pub(crate) const WREN_HELD: TrialSession = TrialSession {
    hold: Hold::Amid {
        behind: 4,
        samples: &[0x0A, 0x08, 0x1A, 0x18],
    },
    ..WREN
};

pub(crate) const SLEEP_ENDED_AT_RELEASE: TrialSession = TrialSession {
    hold: Hold::Amid {
        behind: 8,
        samples: &[0x08, 0x1B],
    },
    ..SLEEP
};
