// Whether a record's axles lie in a band.
ghost use Rattle.std.specs.Prelude.{◌≡◌, length};
ghost use Rattle.axles.specs.Band.{in_band};

use text::decimal::is_digit;

// The bytes of a record that are the tens and the units of its axles.
pub const TENS: usize = 17;

pub const UNITS: usize = 18;

// Whether both bytes are digits and the axles lie in the band, ends included.
pub fn in_band(lower: u64, upper: u64, bytes: &[u8]) -> bool
    requires { length bytes.now ≡ 63 }
    ensures { result ≡ in_band lower upper bytes.now }
{
    if !is_digit(bytes[TENS]) {
        return false;
    }
    if !is_digit(bytes[UNITS]) {
        return false;
    }
    let tens = u64::from(bytes[TENS]);
    let units = u64::from(bytes[UNITS]);
    let axles = 10 * (tens - 48) + (units - 48);
    if axles < lower {
        return false;
    }
    axles <= upper
}
