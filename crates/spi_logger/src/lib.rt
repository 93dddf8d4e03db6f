//! A logger: pins that log the samples which are put through them.
//!
//! What it promises: they are the same pins, and the buffer holds the samples, as far as it has room.
#![tactic(auto)]

ghost use Rattle.std.specs.Prelude.{◌≡◌, ◌≤◌, length, take};
ghost use Rattle.spi_logger.specs.Logged.{Logged, logging};

use chip::Pins;
use datasheet::{Level, Sample};

/// Pins with a buffer beside them, into which each sample is put before it goes on. When the buffer is full, no more is logged;
/// the samples go on all the same.
#[derive(Drop)]
pub struct Logger<'b, P> {
    buffer: &'b mut [Sample],
    pins: P,
    count: usize,
    ghost inside: { count ≤ length buffer.now },
}

impl<'b, P: Pins> Logger<'b, P> {
    /// A logger at these pins that has logged nothing.
    pub fn new(pins: P, buffer: &'b mut [Sample]) -> Logger<'b, P>
        ensures pins { result.pins ≡ pins }
        ensures buffer { result.buffer.now ≡ buffer.old }
        ensures count { result.count ≡ 0 }
        ensures lent { result.buffer.ghost_name ≡ buffer.entry.ghost_name }
    {
        Logger {
            buffer,
            pins,
            count: 0,
        }
    }

    /// The samples that it has logged, in the order in which they were put: at most as many as the buffer has room for.
    pub fn logged(&self) -> &[Sample]
        ensures { result.now ≡ take self.now.count self.now.buffer.now }
    {
        &self.buffer[..self.count]
    }
}

impl<P: Pins> Pins for Logger<'_, P> {
    ghost use Rattle.std.specs.Borrow.{GName};
    ghost use Rattle.spi_logger.specs.Views.{logged_by, logger_lent};

    ghost chip = { λ s. P.chip s.pins };

    ghost sound = { λ s. P.sound s.pins };

    ghost Trace = { Logged };

    ghost trace = { λ s. logged_by s };

    ghost traced = { logging };

    ghost Lent = { GName × P.Lent };

    ghost lent = { λ s. logger_lent P.lent s };

    fn put(&mut self, sample: Sample) -> Level {
        if self.count < self.buffer.len() {
            self.buffer[self.count] = sample;
            self.count += 1;
        }
        self.pins.put(sample)
    }
}
