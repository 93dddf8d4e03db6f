// Lists of calls.
ghost use Rattle.std.specs.Prelude.{◌≡◌};
ghost use Rattle.datasheet.specs.Chips.{whole};
ghost use Rattle.datasheet.specs.Kept.{bounded};
ghost use Rattle.datasheet.specs.Machines.{left_by};
ghost use Rattle.spi_model.specs.Buses.{after, answer, run};
ghost use Rattle.spi_model.specs.Turns.{calls_of, turns_made};
ghost use Rattle.spi_model.specs.Laws.{BlankReadsOnes, BusKeepsEnough, StaysWhole};

use crate::SpiBus;
use spi_model::{BusAnswer, BusCall, BusTurn};

/// Makes one call and answers it; an exchange with no open session reads FFh.
fn make_call<B: SpiBus>(bus: &mut B, call: BusCall) -> BusAnswer
    ensures answer { result ≡ answer bounded (B.meaning bus.old) call }
    ensures after { B.meaning bus.new ≡ after bounded (B.meaning bus.old) call }
    ensures traced { B.trace bus.new ≡ B.traced (B.trace bus.old) call }
    ensures lent { B.lent bus.new ≡ B.lent bus.old }
{
    match call {
        BusCall::Select => {
            bus.select();
            BusAnswer::Done
        }
        BusCall::Exchange(byte) => BusAnswer::Read(bus.exchange(byte)),
        BusCall::Deselect => {
            bus.deselect();
            BusAnswer::Done
        }
    }
}

/// Makes the calls of these turns over a bus, one after the other, and puts each answer beside its call; the calls stay. An answer
/// that a turn had before gives way.
#[tactic(auto, using(crate::proofs::Laws::kept, crate::proofs::Laws::blank))]
pub fn perform<B: SpiBus>(bus: &mut B, turns: &mut [BusTurn])
    ensures turns { turns.new ≡ turns_made bounded (B.meaning bus.old) (calls_of turns.old) }
    ensures after { B.meaning bus.new ≡ run bounded (B.meaning bus.old) (calls_of turns.old) }
    ensures traced { B.trace bus.new ≡ left_by B.traced (B.trace bus.old) (calls_of turns.old) }
    ensures lent { B.lent bus.new ≡ B.lent bus.old }
    ensures kept { BusKeepsEnough × StaysWhole }
    ensures blank { (BlankReadsOnes whole) × (BlankReadsOnes bounded) }
{
    for i in 0..turns.len() {
        turns[i].answer = Some(make_call(bus, turns[i].call));
    }
}
