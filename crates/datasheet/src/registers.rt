ghost use Rattle.std.specs.Prelude.{◌≡◌, ◌+◌, ◌*◌, ◌%◌};
ghost use Rattle.datasheet.specs.Bits.{bit as value_of};
ghost use Rattle.datasheet.specs.Commands.{command_at, first_data};
ghost use Rattle.datasheet.specs.Kept.{cleared, turns, moved, taken};

use crate::command::Command;
use crate::sheet::Sheet;

/// What a chip keeps of a session: enough for the rules, however long the session is.
/// count: the bits taken so far, up to 47, then from 40 again; code: the op-code; place: the address counter;
/// shift: the last eight bits.
#[derive(Clone, Copy, Debug, PartialEq, Eq)]
pub struct Registers {
    pub count: u8,
    pub code: u8,
    pub place: u16,
    pub shift: u8,
}

impl Registers {
    /// No bit taken.
    pub fn cleared() -> Registers
        ensures { result ≡ cleared }
    {
        Registers {
            count: 0,
            code: 0,
            place: 0,
            shift: 0,
        }
    }

    /// The command of the session; none before the op-code is whole.
    pub fn command(self, sheet: Sheet) -> Option<Command>
        ensures { result ≡ command_at sheet self.count self.code }
    {
        if self.count < 8 {
            None
        } else {
            sheet.command(self.code)
        }
    }

    /// The number of bits before the first data bit of the session's command.
    pub fn first_data(self, sheet: Sheet) -> u8
        ensures { result ≡ first_data (command_at sheet self.count self.code) }
    {
        match self.command(sheet) {
            Some(Command::Fstrd) => 32,
            _ => 24,
        }
    }

    /// What is kept after one bit more.
    pub fn taken(self, sheet: Sheet, bit: bool) -> Registers
        ensures { result ≡ taken sheet self bit }
    {
        let count = if self.count >= 47 { 40 } else { self.count + 1 };
        let code = if self.count < 8 {
            shifted(self.code, bit)
        } else {
            self.code
        };
        Registers {
            count,
            code,
            place: self.moved(sheet, bit),
            shift: shifted(self.shift, bit),
        }
    }

    /// The address counter after one bit more.
    fn moved(self, sheet: Sheet, bit: bool) -> u16
        ensures { result ≡ moved sheet self bit }
    {
        if self.count < 8 {
            self.place
        } else if self.count < 24 {
            // a place is below 2^15, the most cells of a sheet, so the cast loses nothing, and `try_from` could not fail
            ((2 * usize::from(self.place) + usize::from(bit)) % sheet.cells()) as u16
        } else if turns(self.first_data(sheet), self.count) {
            sheet.next_place(self.place)
        } else {
            self.place
        }
    }
}

/// A register of eight bits after one bit more: the oldest falls out.
fn shifted(register: u8, bit: bool) -> u8
    ensures { result ≡ (2 * register + value_of bit) % 256 }
{
    (2 * (register % 128)) + u8::from(bit)
}

/// After n bits, where the data begin after `first`, the next bit completes a data byte.
fn turns(first: u8, n: u8) -> bool
    ensures { result ≡ turns first n }
{
    u16::from(first) + 7 <= u16::from(n) && (u16::from(n) + 1) % 8 == 0
}
