// A bus over any bus.
ghost use Rattle.std.specs.Prelude.{◌≡◌, ◌+◌, ◌-◌, ◌^◌, min};
ghost use Rattle.datasheet.specs.Kept.{bounded};
ghost use Rattle.spi_model.specs.declared.bus_call.BusCall.TheVariants.{Select, Exchange, Deselect};
ghost use Rattle.spi_model.specs.Buses.{selected, exchanged, read, deselected};

use spi_bus::SpiBus;

/// A bus that counts the bytes that are sent over it, up to 2^64 - 1, and passes every call on.
#[derive(Drop)]
pub struct Counted<B> {
    bus: B,
    sent: u64,
}

impl<B: SpiBus> Counted<B> {
    /// A bus over this one, over which nothing was sent.
    pub fn new(bus: B) -> Counted<B>
        ensures bus { result.bus ≡ bus }
        ensures sent { result.sent ≡ 0 }
    {
        Counted { bus, sent: 0 }
    }

    /// How many bytes were sent.
    pub fn sent(&self) -> u64
        ensures { result ≡ self.now.sent }
    {
        self.sent
    }
}

// Each call says what the count is afterwards (`sent`). An impl that says more than the trait repeats the trait's clauses.
impl<B: SpiBus> SpiBus for Counted<B> {
    ghost meaning = { λ s. B.meaning s.bus };

    ghost sound = { λ s. B.sound s.bus };

    ghost aligned = { λ s. B.aligned s.bus };

    ghost Trace = { B.Trace };

    ghost trace = { λ s. B.trace s.bus };

    ghost traced = { B.traced };

    ghost Lent = { B.Lent };

    ghost lent = { λ s. B.lent s.bus };

    fn select(&mut self)
        ensures after { B.meaning self.new.bus ≡ selected bounded (B.meaning self.old.bus) }
        ensures traced { B.trace self.new.bus ≡ B.traced (B.trace self.old.bus) Select }
        ensures sent { self.new.sent ≡ self.old.sent }
        ensures lent { B.lent self.new.bus ≡ B.lent self.old.bus }
    {
        self.bus.select()
    }

    fn exchange(&mut self, byte: u8) -> u8
        ensures read { result ≡ read bounded (B.meaning self.old.bus) byte }
        ensures after { B.meaning self.new.bus ≡ exchanged bounded (B.meaning self.old.bus) byte }
        ensures traced { B.trace self.new.bus ≡ B.traced (B.trace self.old.bus) (Exchange byte) }
        ensures sent { self.new.sent ≡ min (self.old.sent + 1) (2 ^ 64 - 1) }
        ensures lent { B.lent self.new.bus ≡ B.lent self.old.bus }
    {
        self.sent = self.sent.saturating_add(1);
        self.bus.exchange(byte)
    }

    fn deselect(&mut self)
        ensures after { B.meaning self.new.bus ≡ deselected bounded (B.meaning self.old.bus) }
        ensures traced { B.trace self.new.bus ≡ B.traced (B.trace self.old.bus) Deselect }
        ensures sent { self.new.sent ≡ self.old.sent }
        ensures lent { B.lent self.new.bus ≡ B.lent self.old.bus }
    {
        self.bus.deselect()
    }
}
