ghost use Rattle.std.specs.Prelude.{◌≡◌};

use crate::{BusAnswer, BusCall};

/// A call of a bus and, beside it, the place of its answer. Making the call leaves it as it is and fills the place.
#[derive(Clone, Copy, Debug, PartialEq, Eq)]
pub struct BusTurn {
    pub call: BusCall,
    /// none until the call is made
    pub answer: Option<BusAnswer>,
}

impl BusTurn {
    ghost use Rattle.spi_model.specs.Turns.{unanswered};

    /// A call that is not made yet.
    pub fn new(call: BusCall) -> BusTurn
        ensures { result ≡ unanswered call }
    {
        BusTurn { call, answer: None }
    }
}
