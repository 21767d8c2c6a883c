// The line that says by which number an input is refused.
ghost use Rattle.std.specs.Prelude.{◌≤◌, length};
ghost use Rattle.text.specs.Put.{Put};
ghost use Rattle.text.specs.Refused.{refused};

use crate::decimal::put_field;
use crate::literal::put_text;

// `refused,` and the number.
#[tactic(auto, using(crate::proofs::Put::put_then), unfolding(crate::specs::Refused::refused))]
pub fn put_refusal(out: &mut [u8], number: u64) -> usize
    requires { 29 ≤ length out.old }
    ensures { Put out.old 0 (refused number) out.new result × (result ≤ 29) }
{
    let at = put_text(out, 0, b"refused,");
    put_field(out, at, number, b'\n')
}
