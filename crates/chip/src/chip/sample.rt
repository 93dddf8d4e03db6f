// A sample put to the pins.
ghost use Rattle.std.specs.Prelude.{◌≡◌, ◌≤◌, length};
ghost use Rattle.datasheet.specs.Chips.{whole, turn, judged, output};
ghost use Rattle.datasheet.specs.Calls.{so, put, sampled, answered};
ghost use Rattle.datasheet.specs.Kept.{bounded};
ghost use Rattle.chip_laws.specs.Laws.{Enough, RollsOver, SpoiledIsIdle, StaysFitted};
ghost use Rattle.chip.specs.Views.{record_of, chip_of, pins_of};

use super::Chip;
use crate::session::Session;
use datasheet::{Course, Level, Refusal, Registers, Sample};

// Each of these says for itself which chip it leaves (`sheet`, `lent`): a clause is what the next caller may rely on.
impl Chip<'_> {
    /// The new sample, judged by the last one and the session together, in a fitted chip.
    fn judge(&mut self, sample: Sample)
        ensures judged { turn (record_of self.new) (pins_of self.new.session) ≡
            judged bounded self.old.sheet (record_of self.old) (pins_of self.old.session) sample }
        ensures sheet { self.new.sheet ≡ self.old.sheet }
        ensures cells { length self.new.memory.now ≡ length self.old.memory.now }
        ensures lent { self.new.memory.ghost_name ≡ self.old.memory.ghost_name }
    {
        let (course, kept, so) = match (self.session, sample) {
            // still deselected
            (None, Sample { cs: true, .. }) => return,
            // a session begins
            (None, _) => (
                Course::Running.after(sample),
                Registers::cleared(),
                Level::HighZ,
            ),
            // the session ends
            (Some(last), Sample { cs: true, .. }) => {
                self.status.end(self.sheet, last);
                self.session = None;
                return;
            }
            // a rise in a session that runs on: SI is taken
            (Some(last), _) if last.course.runs() && sample.hold && !last.sck && sample.sck => {
                (Course::Running, self.take(last.kept, sample), last.so)
            }
            // a fall: SO is set
            (Some(last), _) if last.course.runs() && sample.hold && last.sck && !sample.sck => {
                (Course::Running, last.kept, self.show(last.kept))
            }
            // no edge counts
            (Some(last), _) => (last.course.after(sample), last.kept, last.so),
        };
        self.session = Some(Session {
            sck: sample.sck,
            course,
            kept,
            so,
        });
    }

    /// SO, as far as it is driven.
    fn output(&self) -> Level
        ensures { result ≡ output (pins_of self.now.session) }
    {
        match self.session {
            Some(Session { course, so, .. }) if course.runs() => so,
            _ => Level::HighZ,
        }
    }

    /// The chip after a sample of these levels, and what SO shows then. A blank chip changes nothing, and its SO is high-Z.
    pub(crate) fn put(&mut self, sample: Sample) -> Level
        ensures shows { result ≡ so (put bounded (chip_of self.old) sample) }
        ensures state { chip_of self.new ≡ put bounded (chip_of self.old) sample }
        ensures sheet { self.new.sheet ≡ self.old.sheet }
        ensures lent { self.new.memory.ghost_name ≡ self.old.memory.ghost_name }
    {
        if !self.is_fitted() {
            return Level::HighZ;
        }
        self.judge(sample);
        self.output()
    }

    /// Puts a sample to the pins, by its byte, and answers what SO shows then. A byte with a bit 5, 6 or 7 is refused and
    /// leaves everything.
    #[tactic(auto, using(crate::proofs::Laws::stays, crate::proofs::Laws::idle))]
    pub fn sample(&mut self, byte: u8) -> Result<Level, Refusal>
        ensures answer { result ≡ answered bounded (chip_of self.old) byte }
        ensures state { chip_of self.new ≡ sampled bounded (chip_of self.old) byte }
        ensures refused { 32 ≤ byte → self.new ≡ self.old }
        ensures sheet { self.new.sheet ≡ self.old.sheet }
        ensures lent { self.new.memory.ghost_name ≡ self.old.memory.ghost_name }
        ensures enough { Enough }
        ensures rolls { RollsOver }
        ensures idle { (SpoiledIsIdle whole) × (SpoiledIsIdle bounded) }
        ensures stays { (StaysFitted whole) × (StaysFitted bounded) }
    {
        let sample = Sample::try_from(byte)?;
        Ok(self.put(sample))
    }
}
