// Scripts taken apart into steps.
ghost use Rattle.std.specs.Prelude.{◌≡◌, ◌≤◌, length};
ghost use Rattle.script.specs.Reading.{read_script, counted};

use super::Runs;
use datasheet::Refusal;
use std::marker::PhantomData;
use std::mem;

/// Why no step stands at the beginning of a script.
#[derive(Clone, Copy, Debug, PartialEq, Eq)]
pub(super) enum Fault {
    /// its kind is not known to the run
    UnknownKind,
    /// the script ends inside it
    ShortStep,
}

/// The steps of a script, one after the other, of which `rest` is still to be read. A fault is the last that comes, as the
/// refusal with the place of its kind byte.
#[derive(Drop)]
pub(super) struct Steps<'s, X> {
    script: &'s [u8],
    rest: &'s [u8],
    of: PhantomData<X>,
    ghost within: { length rest.now ≤ length script.now },
}

impl<'s, X: Runs<'s>> Steps<'s, X> {
    ghost use Rattle.script.specs.Views.{left};

    /// All steps of a script.
    pub(super) fn new(script: &'s [u8]) -> Steps<'s, X>
        ensures left { left X.kinds result ≡ read_script X.kinds script.now }
        ensures all { length result.rest.now ≡ length script.now }
    {
        Steps {
            script,
            rest: script,
            of: PhantomData,
        }
    }
}

impl<'s, X: Runs<'s>> Iterator for Steps<'s, X> {
    ghost use Rattle.std.specs.Iterator.{item_count};
    ghost use Rattle.script.specs.Views.{GivesStep};

    type Item = Result<X::Step, Refusal>;

    ghost next_gives = { GivesStep X.call X.kinds };

    ghost remaining = { item_count (λ s. s.rest.now) };

    #[tactic(auto, using(crate::proofs::Ahead::coming))]
    fn next(&mut self) -> Option<Result<X::Step, Refusal>> {
        let place = self.script.len() - self.rest.len();
        let rest = mem::take(&mut self.rest);
        if rest.is_empty() {
            return None;
        }
        match X::first(rest) {
            Ok((step, rest)) => {
                self.rest = rest;
                Some(Ok(step))
            }
            // behind a fault nothing is read
            Err(Fault::UnknownKind) => Some(Err(Refusal::UnknownKind { place })),
            Err(Fault::ShortStep) => Some(Err(Refusal::ShortStep { place })),
        }
    }
}

/// The number of steps of a whole script, or the refusal for its first fault.
#[tactic(auto, using(crate::proofs::Ahead::counting))]
pub(super) fn count_steps<'s, X: Runs<'s>>(script: &'s [u8]) -> Result<usize, Refusal>
    ensures count { result ≡ counted (read_script X.kinds script.now) }
{
    let mut steps = 0;
    for step in Steps::<X>::new(script) {
        step?;
        // tried by `try_fold`: that the sum fits stays open, since its closure cannot show it
        steps += 1;
    }
    Ok(steps)
}
