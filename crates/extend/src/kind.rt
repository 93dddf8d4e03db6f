// A kind of chip whose commands are all in the table.
ghost use Rattle.std.specs.Prelude.{true, false, Ok};
ghost use Rattle.datasheet.specs.Sheets.{Made};

use datasheet::{Marks, Refusal, Sheet};

/// The sheet of a chip that has both FSTRD and SLEEP and keeps its write latch: t and f are its third and fourth ID byte. There
/// is none, refusal 1, where the low five bits of t are not from 1 to 5.
pub fn fast_sleeper(t: u8, f: u8) -> Result<Sheet, Refusal>
    ensures { Made t f (record { drop = false; sleep = true; fast = true }) result }
{
    let marks = Marks {
        drop: false,
        sleep: true,
        fast: true,
    };
    Sheet::new(t, f, marks)
}
