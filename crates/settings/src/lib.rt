// The settings of a session, the numbers derived from them, and the shaping of a tween weight: what `Config` and `TweeningMethod` of
// src/lib.rs of crystalorb hold. Every function is total: it has its answer also for settings that do not pass.
#![tactic(auto)]

ghost use Rattle.std.specs.Prelude.{◌≡◌};
ghost use Rattle.timestamp.specs.Timestamps.{bits_of};
ghost use Rattle.settings.specs.Settings.{lag_frames_of, at_least_one, discard_of, store_of};
ghost use Rattle.settings.specs.Settings.{seconds_pass, thresholds_pass, samples_pass, counts_pass, passes_of};
ghost use Rattle.settings.specs.Settings.{sampling_of, lag_frame_count_of, blend_progress_of, samples_to_discard_of, samples_to_store_of};
ghost use Rattle.settings.specs.Tweening.{method_of, known_of, shaped_of};

use refusals::{LONGEST_LATENCY, LONGEST_TIMESTEP, SHORTEST_TIMESTEP};
use timestamp::within;

// How the displayed state is chosen between the two frames next to the present time.
#[derive(Clone, Copy)]
pub enum TweeningMethod {
    // the frame before it
    MostRecentlyPassed,
    // the nearer of the two
    Nearest,
    // a mix of both
    Interpolated,
    // A number that names no method; settings with it do not pass. They have their answers too, a weight as it is among them, so that a None would have to
    // be given a meaning wherever a method is asked.
    Unknown,
}

// The method that a number names.
impl From<u32> for TweeningMethod {
    ghost from_gives = { λ n method. method ≡ method_of n };

    #[tactic(auto, unfolding(crate::specs::Tweening::method_of))]
    fn from(n: u32) -> TweeningMethod {
        match n {
            0 => TweeningMethod::MostRecentlyPassed,
            1 => TweeningMethod::Nearest,
            2 => TweeningMethod::Interpolated,
            _ => TweeningMethod::Unknown,
        }
    }
}

impl TweeningMethod {
    // Whether it is one of the three methods.
    pub(crate) fn is_known(self) -> bool
        ensures { result ≡ known_of self }
    {
        !matches!(self, TweeningMethod::Unknown)
    }

    // The weight t as the method shapes it.
    pub fn shape_interpolation_t(self, t: f64) -> f64
        ensures { result ≡ shaped_of self t }
    {
        match self {
            TweeningMethod::MostRecentlyPassed => timestamp::floor(t),
            TweeningMethod::Nearest => timestamp::round(t),
            TweeningMethod::Interpolated | TweeningMethod::Unknown => t,
        }
    }
}

// The settings, in the order in which a call names them.
#[derive(Clone, Copy)]
pub struct Settings {
    // timestep_seconds
    pub timestep: f64,
    // blend_latency
    pub blend: f64,
    // lag_compensation_latency
    pub lag: f64,
    // clock_sync_request_period
    pub period: f64,
    // max_tolerable_clock_deviation
    pub deviation: f64,
    // timestamp_skip_threshold_seconds
    pub skip: f64,
    // update_delta_seconds_max
    pub max: f64,
    // clock_sync_needed_sample_count
    pub needed: u32,
    // clock_sync_assumed_outlier_rate
    pub rate: f64,
    // fastforward_max_per_step
    pub m: u32,
    // tweening_method
    pub method: TweeningMethod,
}

// What a mean of clock samples goes by: how many samples it needs, and the rate of outliers that is expected among them.
#[derive(Clone, Copy)]
pub struct Sampling {
    pub needed: u32,
    pub rate: f64,
}

impl Sampling {
    // Whether both are in their ranges.
    #[tactic(auto, unfolding(crate::specs::Settings::samples_pass))]
    pub fn passes(self) -> bool
        ensures { result ≡ samples_pass self.needed self.rate }
    {
        (1..=refusals::MOST_NEEDED).contains(&self.needed) && within(0.0, 1.0, self.rate)
    }

    // How many samples are left out at each end of those sorted: half of the outliers that are to be expected, rounded up, and at least 1.
    // The Rust saturates at the largest usize; here 65,535 is the most, which settings that pass stay far below.
    pub fn to_discard(self) -> usize
        ensures { result ≡ discard_of self.needed self.rate }
    {
        let half = f64::from(self.needed) * self.rate / 2.0;
        usize::from(std::num::saturating_f64_to_u16(timestamp::ceil(at_least_one(half))))
    }

    // How many samples are stored: those needed and those left out at both ends. The cast is no `usize::from`, since std has none of a u32.
    #[tactic(auto, using(crate::proofs::Discard::discard_lt))]
    pub fn to_store(self) -> usize
        ensures { result ≡ store_of self.needed self.rate }
    {
        let n = self.to_discard();
        self.needed as usize + n * 2
    }
}

impl Settings {
    // The lag in frames, rounded, a half away from zero, as the 16 bits that are taken off a stamp.
    pub fn lag_compensation_frame_count(self) -> u16
        ensures { result ≡ bits_of (lag_frame_count_of self) }
    {
        lag_frames(self.lag, self.timestep).cast_unsigned()
    }

    // How far one frame moves the blend weight.
    pub fn blend_progress_per_frame(self) -> f64
        ensures { result ≡ blend_progress_of self }
    {
        self.timestep / self.blend
    }

    // What a mean goes by.
    pub fn sampling(self) -> Sampling
        ensures { result ≡ sampling_of self }
    {
        Sampling {
            needed: self.needed,
            rate: self.rate,
        }
    }

    // How many samples the mean leaves out at each end.
    pub fn samples_to_discard(self) -> usize
        ensures { result ≡ samples_to_discard_of self }
    {
        self.sampling().to_discard()
    }

    // How many samples are stored before a mean is taken.
    pub fn samples_to_store(self) -> usize
        ensures { result ≡ samples_to_store_of self }
    {
        self.sampling().to_store()
    }

    // Whether every setting is within its limits. Where it is not, the call is refused with 1.
    #[tactic(auto, unfolding(crate::specs::Settings::passes_of))]
    pub fn passes(self) -> bool
        ensures { result ≡ passes_of self }
    {
        seconds_pass(self) && thresholds_pass(self) && counts_pass(self) && self.method.is_known()
    }
}

// How many frames of the timestep a lag is.
#[tactic(auto, unfolding(crate::specs::Settings::lag_frames_of, timestamp::specs::FloatTimestamps::stamp_of))]
pub(crate) fn lag_frames(lag: f64, timestep: f64) -> i16
    ensures { result ≡ lag_frames_of lag timestep }
{
    std::num::saturating_f64_to_i16(timestamp::round(lag / timestep))
}

// The larger of x and 1; 1 for a NaN. Not std's `max`, which may give either of two that compare equal: tried, and `search` found no proof.
fn at_least_one(x: f64) -> f64
    ensures { result ≡ at_least_one x }
{
    if x > 1.0 { x } else { 1.0 }
}

// The update maximum is at most so many timesteps.
const MOST_TIMESTEPS: f64 = 64.0;

// The timestep, the latencies and the longest update.
fn seconds_pass(s: Settings) -> bool
    ensures { result ≡ seconds_pass s }
{
    within(SHORTEST_TIMESTEP, LONGEST_TIMESTEP, s.timestep)
        && within(SHORTEST_TIMESTEP, LONGEST_LATENCY, s.blend)
        && within(0.0, LONGEST_LATENCY, s.lag)
        && lag_frames(s.lag, s.timestep) <= refusals::MOST_LAG_FRAMES
        && within(0.0, MOST_TIMESTEPS * s.timestep, s.max)
}

// The request period, the clock's tolerable deviation and the skip's threshold.
fn thresholds_pass(s: Settings) -> bool
    ensures { result ≡ thresholds_pass s }
{
    within(0.0, refusals::HOUR, s.period)
        && within(0.0, refusals::HOUR, s.deviation)
        && within(0.0, refusals::HOUR, s.skip)
}

// The samples, and how many steps a frame may catch up.
#[tactic(auto, unfolding(crate::specs::Settings::counts_pass))]
fn counts_pass(s: Settings) -> bool
    ensures { result ≡ counts_pass s }
{
    s.sampling().passes() && (1..=refusals::MOST_STEPS).contains(&s.m)
}
