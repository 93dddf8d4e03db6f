// Sessions of a bus, each with the op-code that a driver sends in it.
ghost use Rattle.std.specs.Prelude.{◌≡◌, ℕ, slice_index, true, false, [], ◌∷◌, ◌++◌, ◌%◌, ◌+◌, take, drop, None, ◌*◌, ◌<◌, ◌≤◌, length};
ghost use Rattle.datasheet.specs.declared.command.Command.TheVariants.{Wren, Wrdi};
ghost use Rattle.datasheet.specs.Kept.{bounded};
ghost use Rattle.datasheet.specs.Machines.{left_by};
ghost use Rattle.datasheet.specs.Protection.{first_protected};
ghost use Rattle.spi_model.specs.declared.bus_call.BusCall.TheVariants.{Select};
ghost use Rattle.spi_model.specs.Buses.{selected, deselected, session_calls};
ghost use Rattle.board_model.specs.Layers.{patched};
ghost use Rattle.board_model.specs.Results.{read_into};
ghost use Rattle.spi_driver.specs.Exchanges.{exchanges, all_exchanged, all_read};
ghost use Rattle.spi_driver.specs.Drives.{image_of, calm, with_memory};
ghost use Rattle.spi_driver.specs.Sessions.{session_of, address_of, waking, asking_id, asking_status, reading, writing};

use spi_bus::SpiBus;

/// The op-code that sets the write latch.
const WREN: u8 = 0x06;

/// The op-code that clears the write latch.
const WRDI: u8 = 0x04;

/// The op-code behind which the status byte is read.
const RDSR: u8 = 0x05;

/// The op-code behind which an address is sent and then cells are read.
const READ: u8 = 0x03;

/// The op-code behind which an address is sent and then bytes are put into cells.
const WRITE: u8 = 0x02;

/// The op-code behind which the ID is read.
const RDID: u8 = 0x9F;

/// Exchanges bytes one after the other, and puts each byte that is read in the place of the byte that was sent. It begins and ends
/// no session: where none is open every byte reads FFh.
fn exchange_all<B: SpiBus>(bus: &mut B, bytes: &mut [u8])
    ensures read { bytes.new ≡ all_read bounded (B.meaning bus.old) bytes.old }
    ensures after { B.meaning bus.new ≡ all_exchanged bounded (B.meaning bus.old) bytes.old }
    ensures bytes { (i : ℕ) → slice_index bytes.old i < 256 }
    ensures traced { B.trace bus.new ≡ left_by B.traced (B.trace bus.old) (exchanges bytes.old) }
    ensures lent { B.lent bus.new ≡ B.lent bus.old }
{
    // by places, since after `iter_mut` the library says nothing of what a slice holds
    for i in 0..bytes.len() {
        bytes[i] = bus.exchange(bytes[i]);
    }
}

/// Sends bytes one after the other, and drops what is read with them. It begins and ends no session.
fn send<B: SpiBus>(bus: &mut B, bytes: &[u8])
    ensures after { B.meaning bus.new ≡ all_exchanged bounded (B.meaning bus.old) bytes.now }
    ensures bytes { (i : ℕ) → slice_index bytes.now i < 256 }
    ensures traced { B.trace bus.new ≡ left_by B.traced (B.trace bus.old) (exchanges bytes.now) }
    ensures lent { B.lent bus.new ≡ B.lent bus.old }
{
    for byte in bytes {
        let _ = bus.exchange(*byte);
    }
}

/// A whole session of these bytes; each is replaced by the byte that is read.
fn session<B: SpiBus>(bus: &mut B, bytes: &mut [u8])
    ensures read { bytes.new ≡ all_read bounded (selected bounded (B.meaning bus.old)) bytes.old }
    ensures after { B.meaning bus.new ≡
        deselected bounded (all_exchanged bounded (selected bounded (B.meaning bus.old)) bytes.old) }
    ensures traced { B.trace bus.new ≡ left_by B.traced (B.trace bus.old) (session_calls bytes.old) }
    ensures lent { B.lent bus.new ≡ B.lent bus.old }
{
    bus.select();
    exchange_all(bus, bytes);
    bus.deselect();
}

/// Ends any session, then begins and ends one of no byte, which wakes the chip.
fn wake<B: SpiBus>(bus: &mut B)
    ensures after { B.meaning bus.new ≡
        deselected bounded (selected bounded (deselected bounded (B.meaning bus.old))) }
    ensures traced { B.trace bus.new ≡ left_by B.traced (B.trace bus.old) waking }
    ensures lent { B.lent bus.new ≡ B.lent bus.old }
{
    bus.deselect();
    bus.select();
    bus.deselect();
}

/// Sets the latch to 1, by a session.
fn set_latch<B: SpiBus>(bus: &mut B)
    ensures after { B.meaning bus.new ≡
        deselected bounded (all_exchanged bounded (selected bounded (B.meaning bus.old)) (0x06 ∷ [])) }
    ensures traced { B.trace bus.new ≡ left_by B.traced (B.trace bus.old) (session_of Wren []) }
    ensures lent { B.lent bus.new ≡ B.lent bus.old }
{
    session(bus, &mut [WREN]);
}

/// Sets the latch to 0, by a session.
fn clear_latch<B: SpiBus>(bus: &mut B)
    ensures after { B.meaning bus.new ≡
        deselected bounded (all_exchanged bounded (selected bounded (B.meaning bus.old)) (0x04 ∷ [])) }
    ensures traced { B.trace bus.new ≡ left_by B.traced (B.trace bus.old) (session_of Wrdi []) }
    ensures lent { B.lent bus.new ≡ B.lent bus.old }
{
    session(bus, &mut [WRDI]);
}

/// Ends any session, wakes the chip and sets its latch to 0. The stored bits and the cells stay.
#[tactic(auto, using(crate::proofs::WholeSessions::settles))]
pub(crate) fn settle<B: SpiBus>(bus: &mut B)
    ensures after { B.meaning bus.new ≡ calm (B.meaning bus.old) }
    ensures traced { B.trace bus.new ≡ left_by B.traced (B.trace bus.old) (waking ++ session_of Wrdi []) }
    ensures lent { B.lent bus.new ≡ B.lent bus.old }
{
    wake(bus);
    clear_latch(bus);
}

/// The four bytes of the ID, the code of the maker first, behind the byte that is read with the op-code. Where no chip answers
/// they are FFh.
pub(crate) fn read_identity<B: SpiBus>(bus: &mut B) -> [u8; 5]
    requires { B.meaning bus.old ≡ calm (B.meaning bus.old) }
    ensures asked { result ≡
        all_read bounded (selected bounded (B.meaning bus.old)) (0x9F ∷ 0 ∷ 0 ∷ 0 ∷ 0 ∷ []) }
    ensures same { B.meaning bus.new ≡ B.meaning bus.old }
    ensures traced { B.trace bus.new ≡ left_by B.traced (B.trace bus.old) asking_id }
    ensures lent { B.lent bus.new ≡ B.lent bus.old }
{
    let mut bytes = [RDID, 0, 0, 0, 0];
    session(bus, &mut bytes);
    bytes
}

/// The status byte of a chip that is fitted and calm.
pub(crate) fn read_status<B: SpiBus>(bus: &mut B) -> u8
    requires { B.meaning bus.old ≡ calm (B.meaning bus.old) }
    ensures fitted { (B.meaning bus.old).fitted ≡
        true → result ≡ (B.meaning bus.old).rec.stored % 256 }
    ensures same { B.meaning bus.new ≡ B.meaning bus.old }
    ensures traced { B.trace bus.new ≡ left_by B.traced (B.trace bus.old) asking_status }
    ensures lent { B.lent bus.new ≡ B.lent bus.old }
{
    let mut bytes = [RDSR, 0];
    session(bus, &mut bytes);
    let [_, status] = bytes;
    status
}

/// Begins a session, and sends an op-code and the place of a cell as two bytes, the higher first. The session stays open.
fn address<B: SpiBus>(bus: &mut B, code: u8, start: usize)
    requires { start < 65536 }
    ensures after { B.meaning bus.new ≡
        all_exchanged bounded (selected bounded (B.meaning bus.old)) (code ∷ address_of start) }
    ensures traced { B.trace bus.new ≡ left_by B.traced (B.trace bus.old) (Select ∷ exchanges (code ∷ address_of start)) }
    ensures lent { B.lent bus.new ≡ B.lent bus.old }
{
    bus.select();
    send(bus, &[code, (start / 256) as u8, (start % 256) as u8]);
}

/// Fills the buffer with the cells from place `start` on, one byte of it a cell, in one READ session. They lie in the chip.
pub(crate) fn read_cells<B: SpiBus>(bus: &mut B, start: usize, buffer: &mut [u8])
    requires calm { B.meaning bus.old ≡ calm (B.meaning bus.old) }
    requires fitted { (B.meaning bus.old).fitted ≡ true }
    requires inside { start + length buffer.old ≤ length (B.meaning bus.old).rec.memory }
    requires small { start < 65536 }
    ensures filled { buffer.new ≡ read_into (image_of (B.meaning bus.old)) start buffer.old }
    ensures same { B.meaning bus.new ≡ B.meaning bus.old }
    ensures traced { B.trace bus.new ≡ left_by B.traced (B.trace bus.old) (reading start (length buffer.old)) }
    ensures lent { B.lent bus.new ≡ B.lent bus.old }
{
    address(bus, READ, start);
    buffer.fill(0);
    exchange_all(bus, buffer);
    bus.deselect();
}

/// Puts bytes into the cells from place `start` on, one byte a cell, none of which is protected, in one WRITE session between one
/// that sets the latch and one that clears it.
pub(crate) fn write_cells<B: SpiBus>(bus: &mut B, start: usize, bytes: &[u8])
    requires calm { B.meaning bus.old ≡ calm (B.meaning bus.old) }
    requires fitted { (B.meaning bus.old).fitted ≡ true }
    requires free { start + length bytes.now ≤ first_protected (B.meaning bus.old).sheet (B.meaning bus.old).rec }
    requires small { start < 65536 }
    ensures after { B.meaning bus.new ≡
        with_memory (B.meaning bus.old) (patched (B.meaning bus.old).rec.memory start bytes.now) }
    ensures traced { B.trace bus.new ≡ left_by B.traced (B.trace bus.old) (writing start bytes.now) }
    ensures lent { B.lent bus.new ≡ B.lent bus.old }
{
    set_latch(bus);
    address(bus, WRITE, start);
    send(bus, bytes);
    bus.deselect();
    clear_latch(bus);
}
