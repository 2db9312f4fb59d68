// The functions of `timestamp` under C names, so that a Rust program can compare them with Rust's own f64 and i16 operations.
// For tests only: no host links it, and no header declares it.
#![tactic(auto)]

ghost use Rattle.std.specs.Prelude.{◌≡◌};
ghost use Rattle.timestamp.specs.Timestamps.{sum_of, difference_of, bits_of, signed_of, in_range};
ghost use Rattle.timestamp.specs.Whole.{trunc_of, ceil_of, floor_of, round_of};
ghost use Rattle.timestamp.specs.FloatTimestamps.{from_unwrapped, from_seconds, float_difference_of, as_seconds, float_of, stamp_of, ceil_stamp_of};

use timestamp::{FloatTimestamp, Timestamp};

// Timestamp + u16
#[unsafe(no_mangle)]
pub extern "C" fn probe_add(s: u16, n: u16) -> u16
    ensures { result ≡ sum_of s n }
{
    (Timestamp(s) + n).0
}

// Timestamp - Timestamp
#[unsafe(no_mangle)]
pub extern "C" fn probe_sub(a: u16, b: u16) -> u16
    ensures { result ≡ difference_of a b }
{
    (Timestamp(a) - Timestamp(b)).0
}

// Timestamp::in_comparable_range
#[unsafe(no_mangle)]
pub extern "C" fn probe_in_range(t: u16, midpoint: u16) -> bool
    ensures { result ≡ in_range midpoint t }
{
    Timestamp(t).in_comparable_range(Timestamp(midpoint))
}

// i16::from(Timestamp)
#[unsafe(no_mangle)]
pub extern "C" fn probe_value(t: u16) -> i16
    ensures { result ≡ signed_of t }
{
    i16::from(Timestamp(t))
}

// Timestamp::from(i16)
#[unsafe(no_mangle)]
pub extern "C" fn probe_from_value(v: i16) -> u16
    ensures { result ≡ bits_of v }
{
    Timestamp::from(v).0
}

// FloatTimestamp::from_unwrapped
#[unsafe(no_mangle)]
pub extern "C" fn probe_from_unwrapped(frames: f64) -> f64
    ensures { result ≡ from_unwrapped frames }
{
    FloatTimestamp::from_unwrapped(frames).0
}

// FloatTimestamp::from_seconds
#[unsafe(no_mangle)]
pub extern "C" fn probe_from_seconds(seconds: f64, timestep: f64) -> f64
    ensures { result ≡ from_seconds seconds timestep }
{
    FloatTimestamp::from_seconds(seconds, timestep).0
}

// FloatTimestamp::from(Timestamp)
#[unsafe(no_mangle)]
pub extern "C" fn probe_from_timestamp(t: u16) -> f64
    ensures { result ≡ float_of t }
{
    FloatTimestamp::from(Timestamp(t)).0
}

// FloatTimestamp - FloatTimestamp
#[unsafe(no_mangle)]
pub extern "C" fn probe_float_sub(x: f64, y: f64) -> f64
    ensures { result ≡ float_difference_of x y }
{
    (FloatTimestamp(x) - FloatTimestamp(y)).0
}

// FloatTimestamp::as_seconds
#[unsafe(no_mangle)]
pub extern "C" fn probe_as_seconds(x: f64, timestep: f64) -> f64
    ensures { result ≡ as_seconds x timestep }
{
    FloatTimestamp(x).as_seconds(timestep)
}

// FloatTimestamp::trunc
#[unsafe(no_mangle)]
pub extern "C" fn probe_trunc_stamp(x: f64) -> u16
    ensures { result ≡ bits_of (stamp_of x) }
{
    FloatTimestamp(x).trunc().0
}

// FloatTimestamp::ceil
#[unsafe(no_mangle)]
pub extern "C" fn probe_ceil_stamp(x: f64) -> u16
    ensures { result ≡ bits_of (ceil_stamp_of x) }
{
    FloatTimestamp(x).ceil().0
}

// trunc
#[unsafe(no_mangle)]
pub extern "C" fn probe_trunc(x: f64) -> f64
    ensures { result ≡ trunc_of x }
{
    timestamp::trunc(x)
}

// ceil
#[unsafe(no_mangle)]
pub extern "C" fn probe_ceil(x: f64) -> f64
    ensures { result ≡ ceil_of x }
{
    timestamp::ceil(x)
}

// floor
#[unsafe(no_mangle)]
pub extern "C" fn probe_floor(x: f64) -> f64
    ensures { result ≡ floor_of x }
{
    timestamp::floor(x)
}

// round
#[unsafe(no_mangle)]
pub extern "C" fn probe_round(x: f64) -> f64
    ensures { result ≡ round_of x }
{
    timestamp::round(x)
}
