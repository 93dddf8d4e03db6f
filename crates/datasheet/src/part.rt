ghost use Rattle.std.specs.Prelude.{◌≡◌, ◌≤◌};
ghost use Rattle.datasheet.specs.Parts.{density, marks};

use crate::sheet::Marks;

/// The parts whose data sheets this model follows.
#[derive(Clone, Copy, Debug, PartialEq, Eq)]
pub enum Part {
    Mb85rs64vy,
    Mb85rs128ty,
    Mb85rs256b,
}

impl Part {
    /// The density d, the low five bits of the third ID byte.
    pub(crate) fn density(self) -> u8
        ensures density { result ≡ density self }
        ensures known { (1 ≤ result) × (result ≤ 5) }
    {
        match self {
            Part::Mb85rs64vy => 3,
            Part::Mb85rs128ty => 4,
            Part::Mb85rs256b => 5,
        }
    }

    /// In what it differs from other parts besides its size.
    pub(crate) fn marks(self) -> Marks
        ensures { result ≡ marks self }
    {
        match self {
            Part::Mb85rs64vy | Part::Mb85rs128ty => Marks {
                drop: false,
                sleep: true,
                fast: false,
            },
            Part::Mb85rs256b => Marks {
                drop: true,
                sleep: false,
                fast: true,
            },
        }
    }
}
