// The trial table run through chips and windows, and what else a chip must do and refuse.
use super::*;
use board::{Board, Plain, ReadBoard};
use board_model::Range;
use board_shield::Shield;
use board_window::Window;
use chip::{Chip, ParkedChip};
use datasheet::{Marks, Refusal, Sample, Sheet};
use script::{Counts, chip_visit};
use std::alloc::Global;
use std::process::Abort;
use std::test::Fail;

/// Puts a sample and answers the bit that is read off SO, high-Z as 1.
fn put(chip: &mut Chip<'_>, sample: Sample) -> Result<bool, Fail> {
    Ok(chip.sample(u8::from(sample))?.bit())
}

/// Puts these samples, in which HOLD falls and is let go.
fn let_go(chip: &mut Chip<'_>, samples: &[u8]) -> Result<(), Fail> {
    for sample in samples {
        let _ = chip.sample(*sample)?;
    }
    Ok(())
}

/// Puts what HOLD does behind so many bits.
fn hold_behind(chip: &mut Chip<'_>, hold: Hold, sent: usize) -> Result<(), Fail> {
    match hold {
        Hold::Amid { behind, samples } if behind == sent => let_go(chip, samples),
        _ => Ok(()),
    }
}

/// Puts a session to the pins of the chip, and answers the bytes that are read at the rises.
fn put_session(
    alloc: Global,
    chip: &mut Chip<'_>,
    session: &TrialSession,
) -> Result<Vec<u8>, Fail> {
    let mut read = Vec::new(alloc);
    if session.hold == Hold::LowAtTheStart {
        let_go(chip, &[0x08, 0x0A, 0x1A])?;
        let _ = put(chip, Sample::selected())?;
    } else {
        let _ = put(chip, Sample::selected())?;
    }
    let mut sent = 0usize;
    for byte in session.bytes {
        let mut shown = 0u8;
        for i in 0..8u8 {
            hold_behind(chip, session.hold, sent)?;
            if sent < session.bits {
                let mask = 0x80u8 >> i;
                let fall = Sample {
                    si: byte & mask != 0,
                    ..Sample::selected()
                };
                if put(chip, Sample { sck: true, ..fall })? {
                    shown |= mask;
                }
                let _ = put(chip, fall)?;
            }
            sent = sent.saturating_add(1);
        }
        read.push(shown)?;
    }
    hold_behind(chip, session.hold, sent)?;
    let _ = put(chip, Sample::deselected())?;
    Ok(read)
}

/// Sends all sessions of a row, and answers the bytes that are read in the last of them.
fn send_all(alloc: Global, chip: &mut Chip<'_>, case: &PinCase) -> Result<Vec<u8>, Fail> {
    for session in case.before {
        let _ = put_session(alloc, chip, session)?;
    }
    put_session(alloc, chip, &case.last)
}

/// Sends the sessions of a row to a chip over a memory of zeros, and looks at what is read and kept.
fn run_pins(rt: &(impl Abort + Alloc<A = Global>), case: &PinCase) -> Result<(), Fail> {
    let alloc = rt.alloc();
    let f = match case.part {
        Part::Mb85rs256b => 0x09,
        _ => 0x02,
    };
    let sheet = Sheet::of(case.part, 0, f);
    let mut memory = vec![in alloc; 0u8; sheet.cells()]?;
    let mut chip = ParkedChip::new(sheet, case.stored).power(&mut memory);
    let sent = send_all(alloc, &mut chip, case);
    let _ = chip.power_off().into_parts();
    assert_eq!(rt; sent?.as_slice(), case.seen);
    for change in case.changed {
        assert_eq!(rt; memory.get(change.cell).copied(), Some(change.byte));
        if let Some(cell) = memory.get_mut(change.cell) {
            *cell = 0;
        }
    }
    assert!(rt; memory.iter().all(|byte| *byte == 0));
    Ok(())
}

/// Builds the window of a row, and looks at its size.
fn run_window(rt: &(impl Abort + Alloc<A = Global>), case: &WindowCase) -> Result<(), Fail> {
    let mut memory = vec![in rt.alloc(); 0u8; case.cells]?;
    let mut window = Window::new(Plain::new(&mut memory), case.offset, case.count);
    assert_eq!(rt; window.size(), case.size);
    Ok(())
}

#[test]
fn chip_and_windows_do_what_the_table_says(rt: HostRuntime) -> Result<(), Fail> {
    for i in 0..case_count() {
        let case = case_at(i).ok_or("a row is missing")?;
        match case {
            Case::Pins(pins) => run_pins(&rt, &pins)?,
            Case::Window(window) => run_window(&rt, &window)?,
        }
    }
    assert!(rt; case_at(case_count()).is_none());
    Ok(())
}

/// What a run of this script on a blank chip answers, with this answer buffer.
fn blank_run(script: &[u8], buffer: &mut [u8]) -> Result<Counts, Refusal> {
    let mut memory = [0; 16];
    let parked = ParkedChip::new(Sheet::of(Part::Mb85rs64vy, 0, 0x02), 0);
    let (result, parked) = chip_visit(parked, &mut memory, script, buffer);
    let _ = parked.into_parts();
    result
}

#[test]
fn calls_are_refused_as_they_must(rt: HostRuntime) {
    let marks = Marks {
        drop: false,
        sleep: false,
        fast: false,
    };
    assert_eq!(rt; Sheet::new(0x20, 0, marks), Err(Refusal::NoSheet));
    assert_eq!(rt; Sheet::new(0x05, 0, marks).map(Sheet::cells), Ok(32768));
    let sheet = Sheet::of(Part::Mb85rs64vy, 0, 0x02);
    assert_eq!(rt; sheet.check_memory(&[0; 8191]), Err(Refusal::MemoryLength));
    assert_eq!(rt; sheet.check_memory(&[0; 8192]), Ok(()));
    assert_eq!(rt;
        blank_run(&[0x02, 0x09], &mut [0; 36]),
        Err(Refusal::UnknownKind { place: 1 })
    );
    assert_eq!(rt;
        blank_run(&[0x02, 0x01], &mut [0; 36]),
        Err(Refusal::ShortStep { place: 1 })
    );
    assert_eq!(rt;
        blank_run(&[0x02, 0x02], &mut [0; 9]),
        Err(Refusal::ShortBuffer)
    );
    assert_eq!(rt;
        blank_run(&[0x02, 0x02], &mut [0; 18]),
        Ok(Counts { steps: 2, bytes: 2 })
    );
}

#[test]
fn a_refusal_says_why(rt: HostRuntime) -> Result<(), Fail> {
    let alloc = rt.alloc();
    let fault = format!(in alloc; "{}", Refusal::UnknownKind { place: 3 })?;
    let fence = format!(in alloc; "{}", Refusal::Fenced)?;
    assert_eq!(rt;
        fault.as_str(),
        "the kind of the step at byte 3 is not known to this run"
    );
    assert_eq!(rt;
        fence.as_str(),
        "a cell in the range of the write is fenced"
    );
    Ok(())
}

#[test]
fn a_blank_chip_shows_and_changes_nothing(rt: HostRuntime) -> Result<(), Fail> {
    let mut memory = [0x5A; 3];
    let mut chip = ParkedChip::new(Sheet::of(Part::Mb85rs64vy, 0, 0x02), 0).power(&mut memory);
    let sent = put_session(rt.alloc(), &mut chip, &WRITE_AT_THE_END);
    let beyond = chip.sample(0x20);
    let _ = chip.power_off().into_parts();
    assert_eq!(rt; sent?.as_slice(), [0xFF; 5].as_slice());
    assert_eq!(rt; beyond, Err(Refusal::NotASample));
    assert_eq!(rt; memory, [0x5A; 3]);
    Ok(())
}

#[test]
fn a_read_of_no_cells_reaches_to_the_end(rt: HostRuntime) {
    let mut memory = [0; 8192];
    let mut board = Plain::new(&mut memory);
    assert_eq!(rt; board.read(8192, &mut []), Ok(()));
    assert_eq!(rt; board.read(8193, &mut []), Err(Refusal::OutOfRange));
}

#[test]
fn a_write_of_no_cells_passes_a_fence(rt: HostRuntime) {
    let mut memory = [0; 8];
    let mut board = Shield::new(Plain::new(&mut memory));
    assert_eq!(rt; board.add(Range { start: 3, count: 1 }), Ok(()));
    assert_eq!(rt; board.write(3, &[]), Ok(()));
    assert_eq!(rt; board.write(3, &[0xAA]), Err(Refusal::Fenced));
    assert_eq!(rt; board.write(3, &[0xAA; 6]), Err(Refusal::OutOfRange));
    assert_eq!(rt; board.write(4, &[0xAA; 4]), Ok(()));
    assert_eq!(rt; board.widen(1, 1), Err(Refusal::OutOfRange));
    for _ in 1..8 {
        assert_eq!(rt; board.add(Range { start: 0, count: 0 }), Ok(()));
    }
    assert_eq!(rt;
        board.add(Range { start: 0, count: 0 }),
        Err(Refusal::ShieldFull)
    );
    assert_eq!(rt; memory, [0, 0, 0, 0, 0xAA, 0xAA, 0xAA, 0xAA]);
}
