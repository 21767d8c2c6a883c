// What `packed` answers to further claims, one line each: the claim of the record `abc` as it is, and with one thing wrong for
// each refusal.
#![tactic(auto)]

ghost use Rattle.std.specs.Prelude.{◌<◌, ◌≤◌};

use claim::program::print_answer;
use limits::limit::OUR_LIMIT;
use packing::pack::pack;
use record::produce::produce;

// The bytes of the assignment of a record of one block, 8 for each of 23,041 wires.
const ASSIGNMENT: usize = 184328;

// The bytes of the claim's line, of the whole claim, and one more.
const LINE: usize = 68;

const CLAIM: usize = 2949;

const ROOM: usize = 2950;

// The claim of the record `abc`, whose digest is the standard's first example: the line, and the packed wires. No record here is
// refused.
fn put_claim(input: &mut [u8; ROOM]) {
    input[..LINE].copy_from_slice(
        b"24,66c7f0f462eeedd9d1f2d46bdc10e4e24167c4875cf2f7a2297da02b8f4ba8e0\n",
    );
    let mut assignment = [0u8; ASSIGNMENT];
    let _ = produce(OUR_LIMIT, 24, b"abc", &mut assignment);
    let _ = pack(OUR_LIMIT, 24, &assignment, &mut input[LINE..CLAIM]);
}

// Prints the answer to the first n bytes with some bits of byte `at` turned over. The byte is then as it was.
fn turn(rt: &HostRuntime, input: &mut [u8; ROOM], n: usize, at: usize, bits: u8)
    requires { (n ≤ 2950) × (at < 2950) }
{
    let held = input[at];
    input[at] = held ^ bits;
    print_answer(rt, &input[..n]);
    input[at] = held;
}

// Refusal 1: a length that is no number, an upper-case digit, a carriage return for the line feed, a digit too few, nothing.
fn turn_line(rt: &HostRuntime, input: &mut [u8; ROOM]) {
    turn(rt, input, CLAIM, 0, 16);
    turn(rt, input, CLAIM, 5, 32);
    turn(rt, input, CLAIM, LINE - 1, 7);
    print_answer(
        rt,
        b"24,66c7f0f462eeedd9d1f2d46bdc10e4e24167c4875cf2f7a2297da02b8f4ba8e\n",
    );
    print_answer(rt, b"");
}

// Refusal 2, without packed bytes; 11: none, one too few, one too many; 12: the lowest and the highest spare bit.
fn turn_lengths(rt: &HostRuntime, input: &mut [u8; ROOM]) {
    print_answer(
        rt,
        b"8128,66c7f0f462eeedd9d1f2d46bdc10e4e24167c4875cf2f7a2297da02b8f4ba8e0\n",
    );
    turn(rt, input, LINE, 0, 0);
    turn(rt, input, CLAIM - 1, 0, 0);
    turn(rt, input, ROOM, 0, 0);
    turn(rt, input, CLAIM, CLAIM - 1, 1);
    turn(rt, input, CLAIM, CLAIM - 1, 64);
}

// Refusal 7: wire 0; 8: the first digest wire, and a digit of the digest; 9: the first start wire, the last of all, and a length of
// one bit more.
fn turn_wires(rt: &HostRuntime, input: &mut [u8; ROOM]) {
    turn(rt, input, CLAIM, LINE, 128);
    turn(rt, input, CLAIM, LINE, 64);
    turn(rt, input, CLAIM, 3, 1);
    turn(rt, input, CLAIM, LINE + 32, 64);
    turn(rt, input, CLAIM, CLAIM - 1, 128);
    turn(rt, input, CLAIM, 1, 1);
}

fn main(rt: HostRuntime) {
    let mut input = [0u8; ROOM];
    put_claim(&mut input);
    turn(&rt, &mut input, CLAIM, 0, 0);
    turn_line(&rt, &mut input);
    turn_lengths(&rt, &mut input);
    turn_wires(&rt, &mut input);
}
