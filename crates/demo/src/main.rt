//! A visit told in text: what is done to a chip at its pins and over buses, and to boards, and what comes out.
#![tactic(auto)]

mod buses;
mod drivers;
mod dumps;

use board::{Board, Plain, ReadBoard};
use board_equality::{Same, compare};
use board_join::Join;
use board_model::Range;
use board_shield::Shield;
use board_window::Window;
use buses::tell_buses;
use chip::{Chip, ParkedChip};
use datasheet::{Level, Part, Refusal, Sample, Sheet};
use drivers::tell_drivers;
use dumps::tell_dumps;
use std::{fmt, io};

/// A refused call, told by the number of its refusal.
#[derive(Clone, Copy)]
struct Refused(Refusal);

impl fmt::Display for Refused {
    fn fmt<W: fmt::Write>(&self, f: &mut fmt::Formatter<W>) -> fmt::Result {
        write!(f, "refused by {}", u8::from(self.0))
    }
}

/// HOLD low, with SCK low.
fn held() -> Sample {
    Sample {
        hold: false,
        ..Sample::selected()
    }
}

/// What SO shows after a sample; a refused sample drives nothing.
fn put(chip: &mut Chip<'_>, sample: Sample) -> Level {
    chip.sample(u8::from(sample)).unwrap_or(Level::HighZ)
}

/// CS falls: a session begins.
fn select(chip: &mut Chip<'_>) {
    let _ = put(chip, Sample::selected());
}

/// CS rises: the session ends.
fn deselect(chip: &mut Chip<'_>) {
    let _ = put(chip, Sample::deselected());
}

/// The first `bits` bits of a byte, each a rise and a fall of SCK with SI at the bit. What SO shows at the rises is answered,
/// the bits that are not clocked being 0; high-Z is read as 1. The tests of the trial cases have its like, which fails after a
/// refused sample.
fn clock(chip: &mut Chip<'_>, byte: u8, bits: u8) -> u8 {
    let mut read = 0;
    for i in 0..bits.min(8) {
        let mask = 0x80u8 >> i;
        let fall = Sample {
            si: byte & mask != 0,
            ..Sample::selected()
        };
        if put(chip, Sample { sck: true, ..fall }).bit() {
            read |= mask;
        }
        let _ = put(chip, fall);
    }
    read
}

/// A whole session: every byte of `sent` is clocked, and `read` has what is read, as far as it reaches.
fn session(chip: &mut Chip<'_>, sent: &[u8], read: &mut [u8]) {
    select(chip);
    // not by `zip`, which would stop the clocks where `read` ends
    let mut places = read.iter_mut();
    for byte in sent {
        let seen = clock(chip, *byte, 8);
        if let Some(place) = places.next() {
            *place = seen;
        }
    }
    deselect(chip);
}

/// HOLD goes low with SCK low, SCK runs on for some clocks that do not count, and HOLD is released with SCK at this level; SCK
/// is low at the end. Answers what SO showed while HOLD was low.
fn hold(chip: &mut Chip<'_>, clocks: u8, sck: bool) -> Level {
    let mut shown = put(chip, held());
    for _ in 0..clocks {
        let _ = put(
            chip,
            Sample {
                sck: true,
                ..held()
            },
        );
        shown = put(chip, held());
    }
    let _ = put(chip, Sample { sck, ..held() });
    let _ = put(
        chip,
        Sample {
            sck,
            ..Sample::selected()
        },
    );
    let _ = put(chip, Sample::selected());
    shown
}

/// The pore pressures of a row of cells in pascals, two bytes each, the higher first.
const PRESSURES: [u16; 4] = [10132, 10140, 10171, 10209];

/// Prints bytes in hexadecimal.
fn print_bytes(rt: &HostRuntime, bytes: &[u8]) -> io::Result<()> {
    for byte in bytes {
        print!(rt; " {byte:02X}")?;
    }
    Ok(())
}

/// A visit to a chip, and where it is told.
#[derive(Drop)]
struct Visit<'v, 'm> {
    rt: &'v HostRuntime,
    chip: &'v mut Chip<'m>,
}

impl Visit<'_, '_> {
    /// Puts a session to the pins and prints what was sent and what was read.
    fn tell(&mut self, what: &str, sent: &[u8]) -> io::Result<()> {
        let rt = self.rt;
        let mut buffer = [0; 16];
        let shown = sent.len().min(buffer.len());
        let read = &mut buffer[..shown];
        session(self.chip, sent, read);
        print!(rt; "{what}: sent")?;
        print_bytes(rt, sent)?;
        print!(rt; ", read")?;
        print_bytes(rt, read)?;
        println!(rt; "")
    }

    /// A row of pore pressures is written and read.
    fn pressures(&mut self) -> io::Result<()> {
        let rt = self.rt;
        println!(rt; "A row of pore pressures is written from cell 0100h on and read back.")?;
        self.tell("  WREN ", &[0x06])?;
        let [[a1, a0], [b1, b0], [c1, c0], [d1, d0]] = PRESSURES.map(u16::to_be_bytes);
        self.tell(
            "  WRITE",
            &[0x02, 0x01, 0x00, a1, a0, b1, b0, c1, c0, d1, d0],
        )?;
        self.tell("  READ ", &[0x03, 0x01, 0x00, 0, 0, 0, 0, 0, 0, 0, 0])
    }

    /// A write across the edge of a protected block.
    fn protected_edge(&mut self) -> io::Result<()> {
        let rt = self.rt;
        println!(rt; "The upper quarter is protected, and a write runs across its edge at 1800h.")?;
        self.tell("  WRSR ", &[0x01, 0x04])?;
        self.tell("  WRITE", &[0x02, 0x17, 0xFE, 0xA1, 0xA2, 0xA3, 0xA4])?;
        self.tell("  READ ", &[0x03, 0x17, 0xFE, 0, 0, 0, 0])
    }

    /// CS raised inside a byte.
    fn cut_short(&mut self) -> io::Result<()> {
        let rt = self.rt;
        println!(rt;
            "CS is raised inside the second data byte of a write: the half byte is not written."
        )?;
        select(self.chip);
        for byte in [0x02, 0x02, 0x00, 0xB1] {
            let _ = clock(self.chip, byte, 8);
        }
        let _ = clock(self.chip, 0xB2, 4);
        deselect(self.chip);
        println!(rt; "  WRITE: sent 02 02 00 B1 and four bits of B2")?;
        self.tell("  READ ", &[0x03, 0x02, 0x00, 0, 0])
    }

    /// HOLD pulled low inside an address with SCK low, and released with SCK at this level.
    fn held_address(&mut self, sck: bool) -> io::Result<()> {
        let rt = self.rt;
        select(self.chip);
        let _ = clock(self.chip, 0x03, 8);
        let _ = clock(self.chip, 0x01, 8);
        let _ = clock(self.chip, 0x00, 3);
        let shown = hold(self.chip, 5, sck);
        let _ = clock(self.chip, 0x00, 5);
        let first = clock(self.chip, 0, 8);
        let second = clock(self.chip, 0, 8);
        deselect(self.chip);
        println!(rt;
            "  READ : sent 03 01 00 with five held clocks, SO {shown} while held, then read {first:02X} {second:02X}"
        )
    }

    /// HOLD released at the level of SCK at which it fell, and at the other.
    fn held_addresses(&mut self) -> io::Result<()> {
        let rt = self.rt;
        println!(rt;
            "HOLD is pulled low inside the address of a read: no clock counts until it is released."
        )?;
        self.held_address(false)?;
        println!(rt;
            "It falls with SCK low again, but is released with SCK high: the session is spoiled."
        )?;
        self.held_address(true)
    }

    /// Sleep and waking.
    fn sleep(&mut self) -> io::Result<()> {
        let rt = self.rt;
        println!(rt; "The chip is put to sleep. The end of the next session wakes it.")?;
        self.tell("  SLEEP", &[0xB9])?;
        self.tell("  RDSR ", &[0x05, 0])?;
        self.tell("  RDSR ", &[0x05, 0])
    }

    /// Samples that are no samples.
    fn refused(&mut self) -> io::Result<()> {
        let rt = self.rt;
        match self.chip.sample(0x20) {
            Ok(level) => println!(rt; "A sample with bit 5 set shows {level}."),
            Err(refusal) => {
                let refused = Refused(refusal);
                println!(rt; "A sample with bit 5 set is {refused}, and leaves everything.")
            }
        }
    }

    /// The whole visit.
    fn all(&mut self) -> io::Result<()> {
        let rt = self.rt;
        self.tell("  RDID ", &[0x9F, 0, 0, 0, 0])?;
        self.pressures()?;
        self.protected_edge()?;
        self.cut_short()?;
        self.held_addresses()?;
        self.sleep()?;
        self.refused()?;
        println!(rt;
            "The latch is set, and power is taken away and given back over the same memory."
        )?;
        self.tell("  WREN ", &[0x06])?;
        self.tell("  RDSR ", &[0x05, 0])?;
        self.chip.power_cycle();
        self.tell("  RDSR ", &[0x05, 0])?;
        self.tell("  READ ", &[0x03, 0x01, 0x00, 0, 0, 0, 0, 0, 0, 0, 0])?;
        tell_buses(rt, self.chip)
    }
}

/// Writes one byte into a cell.
fn write_byte(chip: &mut Chip<'_>, cell: u16, byte: u8) {
    let [high, low] = cell.to_be_bytes();
    session(chip, &[0x06], &mut []);
    session(chip, &[0x02, high, low, byte], &mut []);
    session(chip, &[0x04], &mut []);
}

/// Two chips that came to the same record in different ways, and then to different ones.
fn two_chips(rt: &HostRuntime, first: &mut Chip<'_>, second: &mut Chip<'_>) -> io::Result<()> {
    println!(rt; "Two chips get the same two bytes, in different order.")?;
    write_byte(first, 0x0040, 0x5A);
    write_byte(first, 0x0041, 0xC3);
    write_byte(second, 0x0041, 0xC3);
    write_byte(second, 0x0040, 0x5A);
    tell_apart(rt, Chips { first, second })?;
    println!(rt; "The second is put to sleep.")?;
    session(second, &[0xB9], &mut []);
    let chips = Chips { first, second };
    tell_apart(rt, chips)?;
    piles(rt, chips)?;
    tell_dumps(rt)?;
    tell_drivers(rt, chips)
}

/// Two chips that are compared.
#[derive(Clone, Copy)]
struct Chips<'c, 'm> {
    first: &'c Chip<'m>,
    second: &'c Chip<'m>,
}

/// Whether any samples could tell two resting chips apart.
fn tell_apart(rt: &HostRuntime, chips: Chips<'_, '_>) -> io::Result<()> {
    if chips.first.same_record(chips.second) {
        println!(rt; "  equal records: no list of samples and power cycles tells them apart")
    } else {
        println!(rt; "  unequal records: some list of samples and power cycles tells them apart")
    }
}

/// Prints whether a call was accepted.
fn tell_call(rt: &HostRuntime, what: &str, res: Result<(), Refusal>) -> io::Result<()> {
    match res {
        Ok(()) => println!(rt; "  {what}: accepted"),
        Err(refusal) => {
            let refused = Refused(refusal);
            println!(rt; "  {what}: {refused}")
        }
    }
}

/// Prints the size of a reading board and its first cells, 24 at the most.
fn tell_cells<B: ReadBoard>(rt: &HostRuntime, board: &mut B) -> io::Result<()> {
    let mut bytes = [0; 24];
    let size = board.size();
    let shown = &mut bytes[..size.min(24)];
    let read = board.read(0, shown);
    print!(rt; "  {size} cells:")?;
    if read.is_ok() {
        print_bytes(rt, shown)?;
    }
    Ok(())
}

/// Prints the first cells of a board, and its first fence.
fn tell_board<B: Board>(rt: &HostRuntime, board: &mut B) -> io::Result<()> {
    tell_cells(rt, board)?;
    let size = board.size();
    match board.first_fence(0, size) {
        Ok(Some(place)) => println!(rt; "; the first fence is at {place}"),
        _ => println!(rt; "; no fence"),
    }
}

/// Prints what a comparison says of two boards.
fn tell_same_boards(rt: &HostRuntime, same: Same) -> io::Result<()> {
    if same.boards {
        println!(rt;
            "  the boards: equal, no list of size, fence question, read and write tells them apart"
        )
    } else {
        println!(rt;
            "  the boards: unequal, some list of size, fence question, read and write tells them apart"
        )
    }
}

/// Compares two boards, beside two chips, and prints what came out.
fn tell_equal<P: Board, Q: Board>(
    rt: &HostRuntime,
    chips: Chips<'_, '_>,
    left: &mut P,
    right: &mut Q,
) -> io::Result<()> {
    let same = compare(chips.first, chips.second, left, right);
    if same.chips {
        println!(rt; "  the chips: equal")?;
    } else {
        println!(rt; "  the chips: unequal")?;
    }
    tell_same_boards(rt, same)
}

/// Writes to a shielded board, and widens a range of the shield.
fn writes<B: Board>(rt: &HostRuntime, board: &mut Shield<B>) -> io::Result<()> {
    tell_board(rt, board)?;
    println!(rt; "The shield fences cells 6 and 7.")?;
    tell_call(
        rt,
        "range from 6 of 2",
        board.add(Range { start: 6, count: 2 }),
    )?;
    tell_call(rt, "write of 2 bytes at 10", board.write(10, &[0x27, 0x94]))?;
    tell_call(rt, "write of 2 bytes at 5", board.write(5, &[0x27, 0x9C]))?;
    println!(rt; "The range is widened by 4, across the seam of the join.")?;
    tell_call(rt, "range 0 widened by 4", board.widen(0, 4))?;
    tell_call(rt, "write of 2 bytes at 11", board.write(11, &[0x27, 0xBB]))?;
    tell_call(rt, "write of 2 bytes at 12", board.write(12, &[0x27, 0xBB]))?;
    tell_call(rt, "write of 2 bytes at 23", board.write(23, &[0x27, 0xBB]))?;
    tell_board(rt, board)
}

/// Two piles built differently, that come to hold the same image and then another.
fn two_piles<B: Board>(rt: &HostRuntime, chips: Chips<'_, '_>, left: &mut B) -> io::Result<()> {
    println!(rt;
        "A second pile: 24 bytes of plain memory get the same bytes, and a shield of two ranges."
    )?;
    let mut memory = [0; 24];
    let _ = left.read(0, &mut memory);
    let mut right = Shield::new(Plain::new(&mut memory));
    tell_call(
        rt,
        "range from 8 of 4",
        right.add(Range { start: 8, count: 4 }),
    )?;
    tell_call(
        rt,
        "range from 6 of 3",
        right.add(Range { start: 6, count: 3 }),
    )?;
    tell_equal(rt, chips, left, &mut right)?;
    println!(rt; "One byte of the second pile is written.")?;
    tell_call(rt, "write of 1 byte at 0", right.write(0, &[0x01]))?;
    tell_equal(rt, chips, left, &mut right)
}

/// A pile of layers over plain memory.
fn piles(rt: &HostRuntime, chips: Chips<'_, '_>) -> io::Result<()> {
    println!(rt;
        "A pile: a shield over a join of a window, eight cells from 4 on of 16 bytes, and 16 bytes more."
    )?;
    let mut lower = [0x11; 16];
    let mut upper = [0x22; 16];
    let window = Window::new(Plain::new(&mut lower), 4, 8);
    let mut pile = Shield::new(Join::new(window, Plain::new(&mut upper)));
    writes(rt, &mut pile)?;
    two_piles(rt, chips, &mut pile)
}

fn main(rt: HostRuntime) -> io::Result<()> {
    let sheet = Sheet::of(Part::Mb85rs64vy, 0x00, 0x02);
    let cells = sheet.cells();
    println!(rt; "An MB85RS64VY with {cells} cells is powered over lent memory, all zeros.")?;
    let mut memory = [0u8; 8192];
    let mut chip = ParkedChip::new(sheet, 0).power(&mut memory);
    let told = Visit {
        rt: &rt,
        chip: &mut chip,
    }
    .all();
    let (_, stored) = chip.power_off().into_parts();
    told?;
    let first = u16::from_be_bytes([memory[0x0100], memory[0x0101]]);
    println!(rt;
        "Parked with the stored bits {stored:02X}; the owner of the memory finds {first} Pa in its bytes."
    )?;
    let mut other = memory;
    let mut chip = ParkedChip::new(sheet, stored).power(&mut memory);
    let mut copy = ParkedChip::new(sheet, stored).power(&mut other);
    let compared = two_chips(&rt, &mut chip, &mut copy);
    let _ = chip.power_off().into_parts();
    let _ = copy.power_off().into_parts();
    compared
}
