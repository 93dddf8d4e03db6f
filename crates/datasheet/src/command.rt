/// The commands, by the names that the op-code tables give them. An op-code that the sheet lacks is none of them, nor are
/// fewer than eight bits.
#[derive(Clone, Copy, Debug, PartialEq, Eq)]
pub enum Command {
    Wren,
    Wrdi,
    Rdsr,
    Wrsr,
    Read,
    Write,
    Rdid,
    Fstrd,
    Sleep,
}
