// Texts written into a lent buffer. Each function here takes the buffer and a place, and gives the place behind: a struct of both would be no
// plainer, since its contracts would still name the buffer and the place before and after.
ghost use Rattle.std.specs.Prelude.{◌+◌, ◌≤◌, length};
ghost use Rattle.text.specs.Put.{Put};

// A text, from `at` on.
#[tactic(auto, using(crate::proofs::Put::put_copied))]
pub fn put_text(out: &mut [u8], at: usize, text: &[u8]) -> usize
    requires { at + length text.now ≤ length out.old }
    ensures { Put out.old at text.now out.new result }
{
    let end = at + text.len();
    out[at..end].copy_from_slice(text);
    end
}
