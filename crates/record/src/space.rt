// Room for assignments, where there is no heap: a local array of the caller.
ghost use Rattle.std.specs.Prelude.{◌≡◌, length};

// The bytes of the longest assignment: 8 for each of 360,961 wires.
pub const LONGEST_ASSIGNMENT: usize = 2887688;

// Room for the longest assignment. The caller needs as much stack. It is a function of its own, since with so long an array in place of the call
// a caller's proof does not close.
pub fn assignment_space() -> [u8; LONGEST_ASSIGNMENT]
    ensures { 2887688 ≡ length result }
{
    [0u8; LONGEST_ASSIGNMENT]
}
