ghost use Rattle.std.specs.Prelude.{◌≡◌, ◌%◌, ◌<◌};
ghost use Rattle.datasheet.specs.Records.{stored_bits};

/// The stored status bits 7 to 2, as a byte whose bits 1 and 0 are 0. `byte` says again that it is one, since a clause about a
/// chip behind a reference does not know it.
#[derive(Clone, Copy, Debug, PartialEq, Eq)]
pub struct StoredBits {
    pub bits: u8,
    ghost byte: { bits < 256 },
    ghost high: { bits % 4 ≡ 0 },
}

// Bits 1 and 0 of a byte are dropped.
impl From<u8> for StoredBits {
    ghost from_gives = { λ byte stored. stored.bits ≡ stored_bits byte };

    fn from(byte: u8) -> StoredBits {
        StoredBits {
            bits: byte - byte % 4,
        }
    }
}
