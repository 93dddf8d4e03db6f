ghost use Rattle.std.specs.Prelude.{◌≡◌};
ghost use Rattle.datasheet.specs.Courses.{runs, is_spoiled, course_after};

use crate::sample::Sample;

/// The course of an open session: what HOLD has made of it.
#[derive(Clone, Copy, Debug, PartialEq, Eq)]
pub enum Course {
    /// HOLD is high: clock edges count.
    Running,
    /// HOLD is low, since a sample with SCK at this level.
    Held(bool),
    /// HOLD came back with SCK at the other level: nothing counts until the session ends.
    Spoiled,
}

impl Course {
    /// Whether clock edges count.
    pub fn runs(self) -> bool
        ensures { result ≡ runs self }
    {
        matches!(self, Course::Running)
    }

    /// Whether it is spoiled.
    pub fn is_spoiled(self) -> bool
        ensures { result ≡ is_spoiled self }
    {
        matches!(self, Course::Spoiled)
    }

    /// The course after a sample with CS low. A session that begins was running.
    pub fn after(self, sample: Sample) -> Course
        ensures { result ≡ course_after self sample }
    {
        match self {
            // HOLD becomes low
            Course::Running if !sample.hold => Course::Held(sample.sck),
            // HOLD becomes high at the other level of SCK
            Course::Held(sck) if sample.hold && sck != sample.sck => Course::Spoiled,
            // HOLD becomes high at the same level
            Course::Held(_) if sample.hold => Course::Running,
            // running, held or spoiled as before
            _ => self,
        }
    }
}
