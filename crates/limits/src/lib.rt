// What every call shares: the limits that document 01 sets, as tests, and laying a list over the front of a slice.
#![tactic(auto)]

ghost use Rattle.std.specs.Prelude.{◌≡◌, ◌≤◌, length};
ghost use Rattle.limits.specs.Limits.{beyond, outside_band, outside_slots, any_beyond};
ghost use Rattle.limits.specs.Answers.{laid};

// The limit of setpoints, rest values and term values, in hundredths either way.
pub const VALUE_LIMIT: u32 = 20000;

// The limit of a number that is written out, in hundredths either way.
pub const WRITTEN_LIMIT: u32 = 40000;

// Whether a number lies beyond ±limit. In 64 bits every limit fits, also with its sign turned.
pub fn is_beyond(limit: u32, number: i32) -> bool
    ensures { result ≡ beyond limit number }
{
    let wide = i64::from(number);
    let most = i64::from(limit);
    most < wide || wide < -most
}

// Whether a number is no band: below 0 or above 40,000.
pub fn is_outside_band(band: i32) -> bool
    ensures { result ≡ outside_band band }
{
    band < 0 || 40000 < band
}

// Whether no profile has that many slots: 0, or more than 512.
pub fn is_outside_slots(slots: usize) -> bool
    ensures { result ≡ outside_slots slots }
{
    slots == 0 || 512 < slots
}

// Whether a setpoint lies beyond ±20,000.
pub fn is_any_beyond(setpoints: &[i16]) -> bool
    ensures { result ≡ any_beyond setpoints.now }
{
    for setpoint in setpoints {
        if is_beyond(VALUE_LIMIT, i32::from(*setpoint)) {
            return true;
        }
    }
    false
}

// Lays `source` over the front of `destination`.
pub fn lay<T: Copy>(source: &[T], destination: &mut [T])
    requires { length source.now ≤ length destination.old }
    ensures { destination.new ≡ laid source.now destination.old }
{
    destination[..source.len()].copy_from_slice(source);
}
