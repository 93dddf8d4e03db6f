/// A call of a bus.
#[derive(Clone, Copy, Debug, PartialEq, Eq)]
pub enum BusCall {
    /// begins a session if none is open
    Select,
    /// sends this byte, the highest bit first, and reads one in its eight bits; with no open session nothing is sent
    Exchange(u8),
    /// ends the session if there is one
    Deselect,
}
