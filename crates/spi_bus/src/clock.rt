// The samples of a byte, put one by one.
ghost use Rattle.std.specs.Prelude.{◌≡◌, [], ◌∷◌};
ghost use Rattle.datasheet.specs.Kept.{bounded};
ghost use Rattle.spi_model.specs.Puts.{tracing, puts, shown_by};
ghost use Rattle.spi_model.specs.Samples.{rest, pausing, clocking, bit_samples, byte_samples, at_rises, at_rise, clock_shows};
ghost use Rattle.spi_model.specs.Lines.{byte_read};

use crate::Setting;
use chip::Pins;
use datasheet::Level;
use spi_model::Mode;

/// Puts what comes before the clock of a bit: the samples that hold, and the one that releases HOLD if there were any.
fn pause<P: Pins>(pins: &mut P, setting: Setting, bit: bool)
    ensures chip { P.chip pins.new ≡
        puts bounded (P.chip pins.old) (pausing setting.mode setting.wp setting.waits bit) }
    ensures traced { P.trace pins.new ≡
        tracing P.traced (P.trace pins.old) (pausing setting.mode setting.wp setting.waits bit) }
    ensures lent { P.lent pins.new ≡ P.lent pins.old }
{
    let held = setting.clock(bit, setting.mode.rest(), false);
    for _i in 0..setting.waits {
        let _ = pins.put(held);
    }
    if setting.waits > 0 {
        let _ = pins.put(setting.clock(bit, setting.mode.rest(), true));
    }
}

/// Of what SO shows in the two samples of a bit's clock, that of the rise.
fn at_rise(mode: Mode, first: Level, second: Level) -> Level
    ensures { result ≡ at_rise mode first second }
{
    match mode {
        Mode::Mode0 => first,
        Mode::Mode3 => second,
    }
}

/// Moves SCK away from rest and back, and answers what SO shows at the rise.
fn clock<P: Pins>(pins: &mut P, setting: Setting, bit: bool) -> Level
    ensures shows { result ≡ clock_shows bounded setting.mode setting.wp (P.chip pins.old) bit }
    ensures chip { P.chip pins.new ≡
        puts bounded (P.chip pins.old) (clocking setting.mode setting.wp bit) }
    ensures traced { P.trace pins.new ≡
        tracing P.traced (P.trace pins.old) (clocking setting.mode setting.wp bit) }
    ensures lent { P.lent pins.new ≡ P.lent pins.old }
{
    let away = pins.put(setting.clock(bit, !setting.mode.rest(), true));
    let back = pins.put(setting.clock(bit, setting.mode.rest(), true));
    at_rise(setting.mode, away, back)
}

/// Puts a bit, and answers what SO shows at the rise, where it is read.
fn put_bit<P: Pins>(pins: &mut P, setting: Setting, bit: bool) -> Level
    ensures read { at_rises (rest setting.mode) (bit_samples setting.mode setting.wp setting.waits bit)
        (shown_by bounded (P.chip pins.old) (bit_samples setting.mode setting.wp setting.waits bit)) ≡ result ∷ [] }
    ensures chip { P.chip pins.new ≡
        puts bounded (P.chip pins.old) (bit_samples setting.mode setting.wp setting.waits bit) }
    ensures traced { P.trace pins.new ≡
        tracing P.traced (P.trace pins.old) (bit_samples setting.mode setting.wp setting.waits bit) }
    ensures lent { P.lent pins.new ≡ P.lent pins.old }
{
    pause(pins, setting, bit);
    clock(pins, setting, bit)
}

/// Puts the eight bits of a byte, the highest first, and answers the byte that is read off the eight levels of SO at the rises.
pub(crate) fn put_byte<P: Pins>(pins: &mut P, setting: Setting, byte: u8) -> u8
    ensures read { result ≡
        byte_read bounded setting.mode setting.wp (P.chip pins.old) (byte_samples setting.mode setting.wp setting.waits byte) }
    ensures chip { P.chip pins.new ≡
        puts bounded (P.chip pins.old) (byte_samples setting.mode setting.wp setting.waits byte) }
    ensures traced { P.trace pins.new ≡
        tracing P.traced (P.trace pins.old) (byte_samples setting.mode setting.wp setting.waits byte) }
    ensures lent { P.lent pins.new ≡ P.lent pins.old }
{
    let mut read = 0u8;
    for taken in 0..8u8 {
        let bit = (byte >> (7 - taken)) % 2 == 1;
        read = 2 * read + u8::from(put_bit(pins, setting, bit).bit());
    }
    read
}
