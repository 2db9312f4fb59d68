// The mean of samples, which src/clocksync.rs of crystalorb takes: sorted, cut at both ends, summed upward from +0.0; and which samples are
// in range.
#![tactic(auto)]

ghost use Rattle.std.specs.Prelude.{◌≡◌, ◌-◌, ◌<◌, ◌≤◌, length, take};
ghost use Rattle.mean.specs.Mean.{sample_inserted, place_of, sorted_of, sum_from, mean_of, samples_ok};
ghost use Rattle.timestamp.specs.Floats.{zero64, sample_ok};
ghost use Rattle.refusals.specs.Limits.{sample_room};

// The mean of samples, of the first 64 where there are more: sorted, `discard` of them left out at each end, summed upward from +0.0.
pub fn mean_of(samples: &[f64], discard: usize) -> f64
    ensures { result ≡ mean_of discard (take sample_room samples.now) }
{
    let n = samples.len().min(refusals::SAMPLE_ROOM);
    let mut room = [0.0; refusals::SAMPLE_ROOM];
    let ordered = &mut room[..n];
    ordered.copy_from_slice(&samples[..n]);
    insertion_sort(ordered);
    let end = n.saturating_sub(discard);
    let start = discard.min(end);
    let sum = sum(&ordered[start..end]);
    sum / std::num::nearest_usize_to_f64(end - start)
}

// Puts samples in order, the least first, one by one among those before it. The library's sorts do not serve: the one that keeps equal
// samples (-0.0 and +0.0) in their order needs a heap for more than 20, and neither says how NaNs, which no test keeps out here, are left.
fn insertion_sort(samples: &mut [f64])
    ensures { samples.new ≡ sorted_of samples.old }
{
    for i in 0..samples.len() {
        let x = samples[i];
        insert(&mut samples[..i + 1], x);
    }
}

// x goes to its place among samples in order; those from there on move up by one, into the last slot, which is left for that.
// (A `rotate_right` moves them by C's memmove; include/kadwunge.h promises that libhost.a uses memcpy and memset alone.)
fn insert(samples: &mut [f64], x: f64)
    requires { 0 < length samples.old }
    ensures { samples.new ≡ sample_inserted x (take (length samples.old - 1) samples.old) }
{
    let last = samples.len() - 1;
    let start = place(&samples[..last], x);
    let mut moved = x;
    for slot in &mut samples[start..] {
        moved = std::mem::replace(slot, moved);
    }
}

// Where x goes among samples in order: before the first that is greater.
fn place(samples: &[f64], x: f64) -> usize
    ensures place { result ≡ place_of x samples.now }
    ensures bound { result ≤ length samples.now }
{
    samples.iter().position(|y| x < *y).unwrap_or(samples.len())
}

// The sum of samples, upward from +0.0.
fn sum(samples: &[f64]) -> f64
    ensures { result ≡ sum_from zero64 samples.now }
{
    samples.iter().fold(0.0, |sum, x| sum + *x)
}

// Whether a sample, or an offset, is finite and within 2^33.
pub fn sample_sound(x: f64) -> bool
    ensures { result ≡ sample_ok x }
{
    timestamp::within(-refusals::LARGEST_SAMPLE, refusals::LARGEST_SAMPLE, x)
}

// Whether each of the samples is.
pub fn all_sound(samples: &[f64]) -> bool
    ensures { result ≡ samples_ok samples.now }
{
    samples.iter().all(|x| sample_sound(*x))
}
