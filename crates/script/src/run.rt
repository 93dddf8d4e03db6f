// Runs of scripts, on anything that carries out their steps.
ghost use Rattle.std.specs.Prelude.{◌≡◌, ◌≤◌, ◌++◌, length, drop, IfOk};
ghost use Rattle.datasheet.specs.Refusals.{refusal_number};
ghost use Rattle.script.specs.Steps.{Kinds, first};
ghost use Rattle.script.specs.Machines.{Machine, reply};
ghost use Rattle.script.specs.Replies.{refusal_bytes};
ghost use Rattle.script.specs.Runs.{CameTo, outcome_by};

mod boards;
mod chips;
mod reads;
mod steps;

pub use boards::board_run;
pub use chips::chip_run;
use datasheet::Refusal;
pub use reads::read_run;
use steps::{Fault, Steps, count_steps};

/// The counts that a run answers: its steps, and the answer bytes that they put into the buffer.
#[derive(Clone, Copy, Debug, PartialEq, Eq)]
pub struct Counts {
    pub steps: usize,
    pub bytes: usize,
}

/// The answers of a run: their bytes, `used` of them, stand one behind the other at the front of a buffer. The buffer is the
/// caller's, since a run takes no memory of its own, which could run out.
#[derive(Drop)]
struct Answers<'b> {
    buffer: &'b mut [u8],
    used: usize,
    ghost within: { used ≤ length buffer.now },
}

impl<'b> Answers<'b> {
    /// No answers yet, at the front of a buffer.
    fn new(buffer: &'b mut [u8]) -> Answers<'b>
        ensures used { result.used ≡ 0 }
        ensures buffer { result.buffer.now ≡ buffer.old }
        ensures lent { result.buffer.ghost_name ≡ buffer.entry.ghost_name }
    {
        Answers { buffer, used: 0 }
    }

    ghost use Rattle.script.specs.Views.{given, free};

    /// Puts the bytes of one more answer behind those that are there.
    #[tactic(auto, using(crate::proofs::Going::placing))]
    fn put(&mut self, bytes: &[u8])
        requires { length bytes.now ≤ length (free self.old) }
        ensures given { given self.new ≡ given self.old ++ bytes.now }
        ensures free { free self.new ≡ drop (length bytes.now) (free self.old) }
        ensures lent { self.new.buffer.ghost_name ≡ self.old.buffer.ghost_name }
    {
        let end = self.used + bytes.len();
        self.buffer[self.used..end].copy_from_slice(bytes);
        self.used = end;
    }

    /// Puts the answer of a step that was refused.
    fn put_refusal(&mut self, refusal: Refusal)
        requires { 2 ≤ length (free self.old) }
        ensures given { given self.new ≡ given self.old ++ refusal_bytes (refusal_number refusal) }
        ensures free { free self.new ≡ drop 2 (free self.old) }
        ensures lent { self.new.buffer.ghost_name ≡ self.old.buffer.ghost_name }
    {
        self.put(&[0x7F, u8::from(refusal)]);
    }
}

/// What a script runs on.
trait Runs<'s> {
    ghost use Rattle.script.specs.Views.{first_of, given, free};

    /// Its steps, and the calls that they stand for.
    type Step: Drop;

    ghost Call: { Type 0 };

    ghost call: { Self.Step → Call };

    ghost kinds: { Kinds Call };

    // What it is, what a call leaves of it, and what a call is answered.
    ghost State: { Type 0 };

    ghost state: { Self → State };

    ghost Answer: { Type 0 };

    ghost machine: { Machine State Call Answer };

    // What no call changes: what it was given, and of a reading board all that stands below it.
    ghost Lent: { Type 0 };

    ghost lent: { Self → Lent };

    /// The first step of a script, and the rest behind it.
    fn first(script: &'s [u8]) -> Result<(Self::Step, &'s [u8]), Fault>
        ensures { first_of call result ≡ first kinds script.now };

    /// Carries out a step, and puts its answer, which has nine bytes at the most.
    fn carry_out(&mut self, step: Self::Step, answers: &mut Answers<'_>)
        requires { 9 ≤ length (free answers.old) }
        ensures state { state self.new ≡ machine.after (state self.old) (call step) }
        ensures given { given answers.new ≡
            given answers.old ++ reply machine (state self.old) (call step) }
        ensures free { free answers.new ≡
            drop (length (reply machine (state self.old) (call step))) (free answers.old) }
        ensures few { length (reply machine (state self.old) (call step)) ≤ 9 }
        ensures buffer { answers.new.buffer.ghost_name ≡ answers.old.buffer.ghost_name }
        ensures lent { lent self.new ≡ lent self.old };
}

/// Runs a script. The whole script is read first, then the buffer is checked, then all steps run: a refused step puts its
/// refusal into the buffer and stops nothing.
#[tactic(auto, using(crate::proofs::Going::goes_on))]
fn run<'s, X: Runs<'s>>(on: &mut X, script: &'s [u8], buffer: &mut [u8]) -> Result<Counts, Refusal>
    ensures outcome { CameTo (outcome_by X.kinds X.machine (X.state on.old) script.now buffer.old)
        result (X.state on.new) buffer.new }
    ensures within { IfOk result (λ counts. counts.bytes ≤ length buffer.old) }
    ensures lent { X.lent on.new ≡ X.lent on.old }
{
    let steps = count_steps::<X>(script)?;
    if buffer.len() / 9 < steps {
        return Err(Refusal::ShortBuffer);
    }
    let mut answers = Answers::new(buffer);
    // all steps were read, so none of them is a fault
    for step in Steps::<X>::new(script) {
        on.carry_out(step?, &mut answers);
    }
    Ok(Counts {
        steps,
        bytes: answers.used,
    })
}
