// The whole assignment of a record with axles between two bounds, into a lent buffer.
ghost use Rattle.std.specs.Prelude.{◌≡◌, ◌+◌, ◌*◌, ◌≤◌, length};
ghost use Rattle.assignment.specs.Wrote.{Wrote};
ghost use Rattle.axles.specs.Band.{InBand};
ghost use Rattle.axles.specs.Layout.{axle_wire_of, numbers};
ghost use Rattle.axles.specs.Produce.{axles_produce_answer, axles_produce_left};
ghost use Rattle.circuit.specs.Axles.{axle_bits, tens_left};
ghost use Rattle.circuit.specs.Wires.{wire_count};
ghost use Rattle.circuit.specs.declared.circuits.Circuit.TheVariants.{Axles};
ghost use Rattle.encoding.specs.Bits.{bit_of_bytes};
ghost use Rattle.forms.specs.WordWires.{number_wires};

use crate::band::{TENS, UNITS, in_band};
use assignment::wires::put_entry;
use circuit::axles::{ABOVE_LOWER, AXLE_BITS, BELOW_UPPER, TENS_LEFT, UNITS_LEFT};
use circuit::band::Band;
use circuit::wire::wire_count;
use limits::handed::ask_record;
use limits::limit::PARTNER_LIMIT;
use limits::record::Record;
use record::produce::put_assignment;
use refusal::numbers::WireNumber;
use refusal::outcome::Refusal;

// A number on `width` wires from w on, the highest bit first.
fn put_number(out: &mut [u8], w: WireNumber, width: u64, x: u64)
    requires { (width ≤ 7) × (8 * (w.0 + width) ≤ length out.old) }
    ensures { Wrote w.0 width (number_wires width x) out.old out.new }
{
    for i in 0..width {
        put_entry(out, WireNumber(w.0 + i), (x >> (width - 1 - i)) % 2);
    }
}

// The appended wires of two digits in a band.
fn put_numbers(out: &mut [u8], band: Band, tens: u64, units: u64)
    requires { (tens ≤ 9) × (units ≤ 9) × (band.lower ≤ 10 * tens + units) × (10 * tens + units ≤ band.upper) × (8 * wire_count (Axles band.lower band.upper) ≤ length out.old) }
    ensures { Wrote tens_left 22 (numbers band.lower band.upper tens units) out.old out.new }
{
    let axles = 10 * tens + units;
    put_number(out, WireNumber(TENS_LEFT), 4, 9 - tens);
    put_number(out, WireNumber(UNITS_LEFT), 4, 9 - units);
    put_number(out, WireNumber(ABOVE_LOWER), 7, axles - band.lower);
    put_number(out, WireNumber(BELOW_UPPER), 7, band.upper - axles);
}

// All wires of a record that lies in the band: its own, and the appended ones.
fn put_axles(out: &mut [u8], band: Band, handed: Record<'_>)
    requires { (handed.bits ≡ axle_bits) × InBand band.lower band.upper handed.bytes.now × (8 * wire_count (Axles band.lower band.upper) ≤ length out.old) }
    ensures { Wrote 0 (wire_count (Axles band.lower band.upper)) (axle_wire_of band.lower band.upper (bit_of_bytes handed.entry.bytes.now)) out.old out.new }
{
    put_assignment(out, handed);
    let tens = u64::from(handed.bytes[TENS]) - 48;
    let units = u64::from(handed.bytes[UNITS]) - 48;
    put_numbers(out, band, tens, units);
}

// The assignment of a record of 63 bytes between two bounds, into the first bytes of `out`.
#[tactic(auto, using(limits::proofs::handed::Asked::handed_stands, limits::proofs::handed::Asked::handed_passed, limits::proofs::handed::Asked::handed_range, circuit::proofs::axles::Bounds::bounds_iff, crate::proofs::Bands::band_iff), unfolding(crate::specs::Produce::axles_produce_answer))]
pub fn produce(lower: u64, upper: u64, bytes: &[u8], out: &mut [u8]) -> Result<(), Refusal>
    ensures value { result ≡ axles_produce_answer lower upper bytes.now (length out.old) }
    ensures out_after { out.new ≡ axles_produce_left result lower upper bytes.now out.old }
{
    let handed = ask_record(PARTNER_LIMIT, AXLE_BITS, bytes)?;
    let band = Band::new(lower, upper).ok_or(Refusal::BoundsOutOfRange)?;
    if !in_band(band.lower, band.upper, bytes) {
        return Err(Refusal::NotInBand);
    }
    let wires = wire_count(band.circuit());
    if (out.len() as u64) < 8 * wires {
        return Err(Refusal::BufferTooShort);
    }
    put_axles(out, band, handed);
    Ok(())
}
