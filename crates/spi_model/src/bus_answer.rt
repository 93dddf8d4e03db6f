/// What a call of a bus is answered.
#[derive(Clone, Copy, Debug, PartialEq, Eq)]
pub enum BusAnswer {
    /// a select or a deselect is done, also where it changes nothing
    Done,
    /// the byte that an exchange read; FFh with no open session, and from a blank chip
    Read(u8),
}
