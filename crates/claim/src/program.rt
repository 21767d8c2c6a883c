// The program `packed`. What is read and written can stand in no contract; what is handed to the write is `prints`
// (specs/Answer), and `AnswersAll` there says that enough is read.
use crate::answer::{answer_to, put_answer};
use console::{print, read_input};
use record::space::assignment_space;

// One byte more than the longest right input has: a line of 75 bytes and 45,121 packed bytes.
const INPUT_ROOM: usize = 45197;

// Prints the answer to the bytes of standard input. What fails has been said on standard error, and nothing is left to do.
pub fn print_answer(rt: &HostRuntime, input: &[u8]) {
    let mut room = assignment_space();
    let answer = answer_to(input, &mut room);
    let mut out = [0u8; 32];
    let n = put_answer(&mut out, answer);
    let _ = print(rt, &out[..n]);
}

// Prints the answer to the claim on standard input.
pub fn run(rt: &HostRuntime) {
    let mut input = [0u8; INPUT_ROOM];
    if let Ok(n) = read_input(rt, &mut input) {
        print_answer(rt, &input[..n]);
    }
}
