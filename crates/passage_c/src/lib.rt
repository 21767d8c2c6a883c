// The passage product for a C host: each function takes numbers and byte slices and answers one 64-bit number, whose low byte is
// the refusal's number and which has the values above it (docs/HOST.md).
#![tactic(auto)]

ghost use Rattle.std.specs.Prelude.{◌≡◌, length};
ghost use Rattle.passage.specs.Front.{Fit};
ghost use Rattle.passage.specs.Read.{read_answer};
ghost use Rattle.passage.specs.Seal.{assignment_of_line, check_line_answer, digest_of_line, seal_answer};
ghost use Rattle.passage.specs.Write.{write_answer, write_left};
ghost use Rattle.passage_c.specs.Packing.{numbers_of, packed_reading};
ghost use Rattle.passage_c.specs.Small.{SmallReading};
ghost use Rattle.refusal.specs.Packing.{packed_outcome};

use passage::numbers::Numbers;
use refusal::outcome::Refusal;
use refusal::packing::{pack_outcome, pack_refusal};

// The numbers of a line in one: lane, time, class and axles from bits 8, 18, 52 and 56 on.
fn pack_numbers(n: Numbers) -> u64
    requires { Fit n }
    ensures { result ≡ packed_reading (Ok n) }
{
    256 * n.lane + 262144 * n.time + 4503599627370496 * n.class + 72057594037927936 * n.axles
}

// The number of a reading.
fn pack_reading(reading: Result<Numbers, Refusal>) -> u64
    requires { SmallReading reading }
    ensures { result ≡ packed_reading reading }
{
    match reading {
        Ok(n) => pack_numbers(n),
        Err(refusal) => pack_refusal(refusal),
    }
}

// The numbers of a line.
#[unsafe(no_mangle)]
#[tactic(auto, using(crate::proofs::Small::read_small))]
pub extern "C" fn passage_read(line: &[u8]) -> u64
    ensures { result ≡ packed_reading (read_answer line.now) }
{
    pack_reading(passage::read::read(line))
}

// The line of the fields, into the first 63 bytes of `out`.
#[unsafe(no_mangle)]
#[tactic(auto, using(crate::proofs::Small::write_small))]
pub extern "C" fn passage_write(
    lane: u64,
    time: u64,
    class: u64,
    axles: u64,
    plate: &[u8],
    blind: &[u8],
    out: &mut [u8],
) -> u64
    ensures value { result ≡ packed_outcome (write_answer (numbers_of lane time class axles) plate.now blind.now (length out.old)) }
    ensures out_after { out.new ≡ write_left (write_answer (numbers_of lane time class axles) plate.now blind.now (length out.old)) (numbers_of lane time class axles) plate.now blind.now out.old }
{
    let numbers = Numbers {
        lane,
        time,
        class,
        axles,
    };
    pack_outcome(passage::write::write(numbers, plate, blind, out))
}

// The digest and the assignment of a line, into the fronts of `digest` and `assignment`.
#[unsafe(no_mangle)]
#[tactic(auto, using(crate::proofs::Small::seal_small))]
pub extern "C" fn passage_seal(line: &[u8], digest: &mut [u8], assignment: &mut [u8]) -> u64
    ensures value { result ≡ packed_outcome (seal_answer line.now (length digest.old) (length assignment.old)) }
    ensures digest_after { digest.new ≡ digest_of_line (seal_answer line.now (length digest.old) (length assignment.old)) line.now digest.old }
    ensures assignment_after { assignment.new ≡ assignment_of_line (seal_answer line.now (length digest.old) (length assignment.old)) line.now assignment.old }
{
    pack_outcome(passage::seal::seal(line, digest, assignment))
}

// The check of an assignment of a line's length against a digest.
#[unsafe(no_mangle)]
#[tactic(auto, using(record::proofs::check::Small::check_small))]
pub extern "C" fn passage_check(digest: &[u8], assignment: &[u8]) -> u64
    ensures { result ≡ packed_outcome (check_line_answer digest.now assignment.now) }
{
    pack_outcome(passage::check::check(digest, assignment))
}
