// Stamps of simulation frames and frame counts, and the whole numbers next to a float: what src/timestamp.rs of crystalorb holds.
// A stamp has 16 bits and wraps; a frame count is an f64 in the same space. The two are separate types, and a frame count becomes a
// stamp only by `trunc` and `ceil`. Every function is total: a NaN and an infinity have their answers too.
#![tactic(auto)]

ghost use Rattle.std.specs.Prelude.{◌≡◌};
ghost use Rattle.std.specs.Float.{binary64};
ghost use Rattle.std.specs.Float.Ieee.{rem};
ghost use Rattle.timestamp.specs.Timestamps.{sum_of, difference_of, signed_of, bits_of, order_of, in_range};
ghost use Rattle.timestamp.specs.Floats.{between};
ghost use Rattle.timestamp.specs.Whole.{trunc_of, ceil_of, floor_of, round_of};
ghost use Rattle.timestamp.specs.FloatTimestamps.{from_unwrapped, from_seconds, float_difference_of, as_seconds, float_of, stamp_of, ceil_stamp_of, cycle64};

use std::cmp::Ordering;
use std::ops::{Add, Sub};

// The stamp of a frame: 16 bits, read as a signed number by `i16::from` alone.
#[derive(Clone, Copy, PartialEq, Eq)]
pub struct Timestamp(pub u16);

// The stamp n frames later, modulo 65,536.
impl Add<u16> for Timestamp {
    type Output = Timestamp;

    ghost add_gives = { λ s n t. t.0 ≡ sum_of s.0 n };

    fn add(self, n: u16) -> Timestamp {
        Timestamp(self.0.wrapping_add(n))
    }
}

// The stamp n frames earlier, modulo 65,536.
impl Sub<u16> for Timestamp {
    type Output = Timestamp;

    ghost sub_gives = { λ s n t. t.0 ≡ difference_of s.0 n };

    fn sub(self, n: u16) -> Timestamp {
        Timestamp(self.0.wrapping_sub(n))
    }
}

// How many frames the stamp is after the other, modulo 65,536.
impl Sub for Timestamp {
    type Output = Timestamp;

    ghost sub_gives = { λ a b d. d.0 ≡ difference_of a.0 b.0 };

    fn sub(self, other: Timestamp) -> Timestamp {
        self - other.0
    }
}

// Stamps are compared up to so many frames before the midpoint of their range, and up to one less after it.
const COMPARABLE: i16 = i16::MAX / 2;

impl Timestamp {
    // The order of two stamps: the sign of their signed difference. Of two that are 32,768 apart each is less than the other, so this is no `Ord`.
    #[tactic(auto, unfolding(crate::specs::Timestamps::order_of))]
    pub fn cmp(self, other: Timestamp) -> Ordering
        ensures { result ≡ order_of self.0 other.0 }
    {
        i16::from(self - other).cmp(&0)
    }

    // Whether the stamp is in the range around the midpoint in which stamps are compared.
    #[tactic(auto, unfolding(crate::specs::Timestamps::in_range))]
    pub fn in_comparable_range(self, midpoint: Timestamp) -> bool
        ensures { result ≡ in_range midpoint.0 self.0 }
    {
        (-COMPARABLE..COMPARABLE).contains(&i16::from(self - midpoint))
    }

    // The stamp of a time, its frame count cut toward zero. A time has two numbers here, so this is no `From`.
    pub fn from_seconds(seconds: f64, timestep: f64) -> Timestamp
        ensures { result.0 ≡ bits_of (stamp_of (from_seconds seconds timestep)) }
    {
        FloatTimestamp::from_seconds(seconds, timestep).trunc()
    }
}

// The stamp as a signed number.
impl From<Timestamp> for i16 {
    ghost from_gives = { λ t v. v ≡ signed_of t.0 };

    #[tactic(auto, unfolding(crate::specs::Timestamps::signed_of))]
    fn from(t: Timestamp) -> i16 {
        t.0.cast_signed()
    }
}

// The stamp of a signed number.
impl From<i16> for Timestamp {
    ghost from_gives = { λ v t. t.0 ≡ bits_of v };

    fn from(v: i16) -> Timestamp {
        Timestamp(v.cast_unsigned())
    }
}

// A frame count: a time in frames, wrapped into the stamps' space.
#[derive(Clone, Copy)]
pub struct FloatTimestamp(pub f64);

impl FloatTimestamp {
    // The frame count of a time, of two numbers as well.
    #[tactic(auto, unfolding(crate::specs::FloatTimestamps::from_seconds))]
    pub fn from_seconds(seconds: f64, timestep: f64) -> FloatTimestamp
        ensures { result.0 ≡ from_seconds seconds timestep }
    {
        FloatTimestamp::from_unwrapped(seconds / timestep)
    }

    // A number of frames wrapped into the stamps' space, which a `From` would not say. The remainder has the sign of its dividend, so a negative one is
    // moved up.
    pub fn from_unwrapped(frames: f64) -> FloatTimestamp
        ensures { result.0 ≡ from_unwrapped frames }
    {
        let r = remainder(frames + 32768.0);
        if r < 0.0 {
            FloatTimestamp(r + 65536.0 - 32768.0)
        } else {
            FloatTimestamp(r - 32768.0)
        }
    }

    // The frame count in seconds.
    pub fn as_seconds(self, timestep: f64) -> f64
        ensures { result ≡ as_seconds self.0 timestep }
    {
        self.0 * timestep
    }

    // The stamp of the frame count cut toward zero, at most 32,767 and at least -32,768; 0 for a NaN.
    pub fn trunc(self) -> Timestamp
        ensures { result.0 ≡ bits_of (stamp_of self.0) }
    {
        Timestamp::from(std::num::saturating_f64_to_i16(trunc(self.0)))
    }

    // The stamp of the frame count rounded up, at most 32,767 and at least -32,768; 0 for a NaN.
    #[tactic(auto, unfolding(crate::specs::FloatTimestamps::stamp_of, crate::specs::FloatTimestamps::ceil_stamp_of))]
    pub fn ceil(self) -> Timestamp
        ensures { result.0 ≡ bits_of (ceil_stamp_of self.0) }
    {
        FloatTimestamp(ceil(self.0)).trunc()
    }
}

// The difference of two frame counts, wrapped.
impl Sub for FloatTimestamp {
    type Output = FloatTimestamp;

    ghost sub_gives = { λ x y d. d.0 ≡ float_difference_of x.0 y.0 };

    fn sub(self, other: FloatTimestamp) -> FloatTimestamp {
        FloatTimestamp::from_unwrapped(self.0 - other.0)
    }
}

// The frame count of a stamp.
impl From<Timestamp> for FloatTimestamp {
    ghost from_gives = { λ t x. x.0 ≡ float_of t.0 };

    fn from(t: Timestamp) -> FloatTimestamp {
        FloatTimestamp(f64::from(i16::from(t)))
    }
}

// The remainder of x by 65,536, with the sign of x: what `%` gives. (`%` may be a call of C's fmod, and a program linked with that runs only over a C
// library as new as the kit's.) From 65,536 up in size the bits below 65,536 are shifted out, and zeros in, as `trunc` does with those below the
// point. That leaves the multiple of 65,536, and what x is over it is exact.
fn remainder(x: f64) -> f64
    ensures { result ≡ rem binary64 x cycle64 }
{
    // a NaN has no bits to work on
    if x.is_nan() {
        return x;
    }
    let bits = f64::to_bits(x);
    let exponent = (bits >> 52) & 0x7ff;
    if exponent < 1039 {
        return x;
    }
    // an infinity leaves no number
    if exponent == 2047 {
        return x - x;
    }
    // from 2^69 on no bit lies below 65,536
    if exponent > 1091 {
        return f64::from_bits((bits >> 63) << 63);
    }
    let cleared = 1091 - exponent;
    let multiple = (bits >> cleared) << cleared;
    if multiple == bits {
        return f64::from_bits((bits >> 63) << 63);
    }
    x - f64::from_bits(multiple)
}

// Here and below: document 01 wants the whole numbers next to a float worked out from its bits, with no call of C's library.
// x without its fraction, the sign kept: the bits below the point are shifted out, and zeros in. From 1 up to 2^53 in size x is
// 1.d × 2^(exponent - 1023), where d are the 52 lowest bits, so all of these but exponent - 1023 lie below the point.
pub fn trunc(x: f64) -> f64
    ensures { result ≡ trunc_of x }
{
    // a NaN has no bits to work on
    if x.is_nan() {
        return x;
    }
    let bits = f64::to_bits(x);
    let exponent = (bits >> 52) & 0x7ff;
    // from 2^53 on, and at an infinity, no bit lies below the point
    if exponent > 1075 {
        return x;
    }
    // the number of bits to clear: below 1 in size all but the sign's
    let below_one = exponent < 1023;
    let cleared = if below_one {
        63
    } else {
        52 - (exponent - 1023)
    };
    f64::from_bits((bits >> cleared) << cleared)
}

// The least whole number that is not below x.
pub fn ceil(x: f64) -> f64
    ensures { result ≡ ceil_of x }
{
    let t = trunc(x);
    if t < x { t + 1.0 } else { t }
}

// The greatest whole number that is not above x.
pub fn floor(x: f64) -> f64
    ensures { result ≡ floor_of x }
{
    let t = trunc(x);
    if x < t { t - 1.0 } else { t }
}

// The whole number nearest to x, a half away from zero. What `trunc` leaves of x is exact, so it is compared with a half.
pub fn round(x: f64) -> f64
    ensures { result ≡ round_of x }
{
    let t = trunc(x);
    let d = x - t;
    if d >= 0.5 {
        return t + 1.0;
    }
    if d <= -0.5 {
        return t - 1.0;
    }
    t
}

// Whether x is from lo to hi. A NaN is not.
// std's `(lo..=hi).contains(&x)` was tried: `search` finds no proof, since its contract goes by `float_partial_cmp`.
pub fn within(lo: f64, hi: f64, x: f64) -> bool
    ensures { result ≡ between lo hi x }
{
    x >= lo && x <= hi
}
