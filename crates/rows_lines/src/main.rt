// What `rows` and `axle_rows` print for lines that the program holds, one after the other: right ones, and some for each refusal.
#![tactic(auto)]

use listing::program::print_listing;
use listing::progress::Listing;
use listing::request::Front::{self, Bounds, Length};

// The lines, each after what is to stand at its front.
const LINES: [(Front, &str); 42] = [
    // Lines with a length at the front.
    // How many may be 0, also where the first row is the count.
    (Length, "0,0,0\n"),
    (Length, "0,32832,0\n"),
    // The paper's example, and the choice row of docs/LAYOUT.md.
    (Length, "0,0,2\n"),
    (Length, "0,20000,1\n"),
    // The first padding bit is fixed to 1: behind no record bit, and behind the last of 1 bit and of 8, which has a bit row.
    (Length, "0,256,1\n"),
    (Length, "1,256,2\n"),
    (Length, "8,263,2\n"),
    // The last padding bits of a record of 5 bits are 101, its length.
    (Length, "5,765,3\n"),
    // The last row of a record of 447 bits, of one block; 448 bits have the next row too, in their second block.
    (Length, "447,32831,1\n"),
    (Length, "448,32832,1\n"),
    // The last row of the longest record, of 16 blocks.
    (Length, "8127,517631,1\n"),
    // Refusal 1: a leading zero, ten digits, a blank, no line feed, something after it, a missing number.
    (Length, "00,0,0\n"),
    (Length, "0,1000000000,0\n"),
    (Length, " 0,0,0\n"),
    (Length, "0,0,0"),
    (Length, "0,0,0\n\n"),
    (Length, "0,0\n"),
    (Length, ""),
    // Refusals 2 and 3, the first of them where both hold.
    (Length, "8128,0,0\n"),
    (Length, "999999999,999999999,999999999\n"),
    (Length, "0,32832,1\n"),
    (Length, "447,32832,1\n"),
    (Length, "0,32833,0\n"),
    // Lines with two bounds at the front.
    // How many may be 0, also where the first row is the count.
    (Bounds, "2,99,0,0\n"),
    (Bounds, "2,2,65186,0\n"),
    // The last bit of the record and the first padding bit; the last row of the digest and the first that is appended.
    (Bounds, "2,5,759,2\n"),
    (Bounds, "2,5,65151,2\n"),
    // The row of docs/LAYOUT.md, 9 less the tens, and the last row, under other bounds.
    (Bounds, "2,5,65177,1\n"),
    (Bounds, "3,3,65164,1\n"),
    (Bounds, "99,99,65185,1\n"),
    // Refusal 1: a leading zero, ten digits, three numbers, five, something after the line feed; four numbers where a length is to
    // stand at the front.
    (Bounds, "02,5,0,0\n"),
    (Bounds, "2,1000000000,0,0\n"),
    (Bounds, "1,5,0\n"),
    (Bounds, "2,5,0,0,0\n"),
    (Bounds, "2,5,0,0\n\n"),
    (Length, "2,5,0,0\n"),
    // Refusals 18 and 3, the first of them where both hold.
    (Bounds, "1,5,0,0\n"),
    (Bounds, "2,100,0,0\n"),
    (Bounds, "6,5,65186,1\n"),
    (Bounds, "999999999,999999999,999999999,999999999\n"),
    (Bounds, "5,5,65186,1\n"),
    (Bounds, "2,99,65187,0\n"),
];

fn main(rt: HostRuntime) {
    for (front, line) in LINES {
        print_listing(&rt, Listing::Rows, front, line.as_bytes());
    }
}
