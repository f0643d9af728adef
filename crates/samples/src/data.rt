// The data of an output, from the counts of a unit and what its sensor reads.
ghost use Rattle.std.specs.Prelude.{◌≡◌, ℕ, ◌*◌, pos, length};
ghost use Rattle.std.specs.Option.{option_map};
ghost use Rattle.mti.specs.declared.channel.Channel.{Channel};
ghost use Rattle.mti.specs.declared.channel.Kind.TheVariants.{Real, Whole};
ghost use Rattle.mti.specs.Identifiers.{size_of};
ghost use Rattle.mti.specs.Precisions.{width_of};
ghost use Rattle.mti.specs.Table.{Bearer, Row};
ghost use Rattle.session.specs.Sampling.{reals_from, measured, data_of};
ghost use Rattle.samples.specs.Filling.{Fills};

use mti::{Kind, Output};
use numbers::put_real;
use sensor::{Question, Sensor};
use session::Counts;
use xbus::put_number;

// The whole number of a channel, if it is there.
fn whole<T: Sensor>(sensor: &mut T, channel: u16, tick: u32) -> Option<u64>
    requires { (c : Channel) × ((w : ℕ) × (Bearer channel c × (c.kind ≡ Whole w))) }
    ensures is { option_map pos result ≡ T.Sensor.meaning sensor.old channel 0 tick }
    ensures stays { T.Sensor.meaning sensor.new ≡ T.Sensor.meaning sensor.old }
{
    let value = sensor.reading(Question {
        channel,
        index: 0,
        tick,
    })?;
    Some(value as u64)
}

// Fills `out` with the real numbers at all indices, unless one is absent.
fn put_reals<T: Sensor>(
    sensor: &mut T,
    output: Output,
    count: u8,
    tick: u32,
    out: &mut [u8],
) -> Option<()>
    requires row { Row output.channel }
    requires kind { output.channel.kind ≡ Real count }
    requires size { length out.old ≡ count * width_of output.precision }
    ensures is { Fills (reals_from (λ k. T.Sensor.meaning sensor.old output.channel.identifier k tick) output.precision 0 count) result out.new }
    ensures stays { T.Sensor.meaning sensor.new ≡ T.Sensor.meaning sensor.old }
{
    let channel = output.channel.identifier;
    let mut at = 0;
    for index in 0..usize::from(count) {
        let value = sensor.reading(Question {
            channel,
            index,
            tick,
        })?;
        at += put_real(&mut out[at..], value, output.precision).unwrap();
    }
    Some(())
}

// Fills `out` with what the sensor measures of an output, unless a reading is absent.
fn put_measured<T: Sensor>(sensor: &mut T, output: Output, tick: u32, out: &mut [u8]) -> Option<()>
    requires row { Row output.channel }
    requires size { length out.old ≡ size_of output }
    ensures is { Fills (measured (λ k. T.Sensor.meaning sensor.old output.channel.identifier k tick) output.precision output.channel.kind) result out.new }
    ensures stays { T.Sensor.meaning sensor.new ≡ T.Sensor.meaning sensor.old }
{
    match output.channel.kind {
        Kind::Real(count) => put_reals(sensor, output, count, tick, out),
        Kind::Whole(_) => {
            let value = whole(sensor, output.channel.identifier, tick)?;
            put_number(out, value);
            Some(())
        }
    }
}

// Fills `out` with the data of an output, unless a reading is absent. A unit counts messages, ticks and seconds itself,
// and E010 is the low byte of E020.
pub(crate) fn put_data<T: Sensor>(
    sensor: &mut T,
    counts: &Counts,
    output: Output,
    out: &mut [u8],
) -> Option<()>
    requires row { Row output.channel }
    requires size { length out.old ≡ size_of output }
    ensures is { Fills (data_of (T.Sensor.meaning sensor.old) counts.now output) result out.new }
    ensures stays { T.Sensor.meaning sensor.new ≡ T.Sensor.meaning sensor.old }
{
    let value = match output.channel.identifier {
        0x1020 => u64::from(counts.sent),
        // a tick is five units of 0.1 ms
        0x1060 => 5 * u64::from(counts.number),
        0x1070 => u64::from(counts.seconds),
        0xE010 => whole(sensor, 0xE020, counts.number)?,
        _ => return put_measured(sensor, output, counts.number, out),
    };
    put_number(out, value);
    Some(())
}
