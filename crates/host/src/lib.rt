// What hosts in C and Rust call directly: functions on numbers and bytes, which `host_c` exports under the same names.
// The header include/kadwunge.h declares them. Every argument is answered; none is required to be anything.
#![tactic(auto)]

ghost use Rattle.std.specs.Prelude.{◌≡◌, ◌≤◌, length, map, replicate};
ghost use Rattle.timestamp.specs.Timestamps.{bits_of, order_of, order_number};
ghost use Rattle.refusals.specs.Limits.{sample_room};
ghost use Rattle.film_rate.specs.Spans.{span_frames_of};
ghost use Rattle.host.specs.Host.{frame_stamp_of};
ghost use Rattle.host.specs.Inner.{float_in};
ghost use Rattle.host.specs.Mean.{bytes_of, judged_mean, mean_answer_of, AnswersMean};
ghost use Rattle.host.specs.Spans.{host_span_of};

use film_rate::Rate;
use refusals::{LONGEST_TIME, LONGEST_TIMESTEP, Refusal, SAMPLE_ROOM, SHORTEST_TIMESTEP, require};
use settings::Sampling;
use timestamp::Timestamp;

// The frames of a span as C lays them out, with the number of the refusal. The spare word is 0 and fills the record, so that no byte of it is left
// undetermined.
#[repr(C)]
#[derive(Clone, Copy)]
pub struct HostSpanFrames {
    pub frames: u64,
    pub remainder: u64,
    pub refusal: u32,
    pub spare: u32,
}

// What is answered for a timestep out of range, in place of a stamp. This and the next are numbers, since C is answered by one i32.
const TIMESTEP_OUT_OF_RANGE: i32 = 65537;

// What is answered for seconds out of range.
const SECONDS_OUT_OF_RANGE: i32 = 65538;

// The order of two stamps, the first against the second: -1, 0 or 1.
pub fn kadwunge_stamp_order(first: i16, second: i16) -> i32
    ensures { result ≡ order_number (order_of (bits_of first) (bits_of second)) }
{
    Timestamp::from(first).cmp(Timestamp::from(second)) as i32
}

// The stamp of the frame at a time, cut toward zero, as a signed number; 65,537 for a timestep out of range, else 65,538 for seconds out of range.
pub fn kadwunge_frame_stamp(seconds: f64, timestep: f64) -> i32
    ensures { result ≡ frame_stamp_of seconds timestep }
{
    if !timestamp::within(SHORTEST_TIMESTEP, LONGEST_TIMESTEP, timestep) {
        return TIMESTEP_OUT_OF_RANGE;
    }
    if !timestamp::within(-LONGEST_TIME, LONGEST_TIME, seconds) {
        return SECONDS_OUT_OF_RANGE;
    }
    i32::from(i16::from(Timestamp::from_seconds(seconds, timestep)))
}

// The whole frames of a span of microseconds at p over q frames a second, and the remainder; or 31, both being 0 then.
// The arguments are plain numbers, as C hands them over.
pub fn kadwunge_frames_of_span(span: u64, p: u32, q: u32) -> HostSpanFrames
    ensures { result ≡ host_span_of (span_frames_of span p q) }
{
    match film_rate::frames_of_span(span, Rate { p, q }) {
        Ok(a) => HostSpanFrames {
            frames: a.frames,
            remainder: a.remainder,
            refusal: 0,
            spare: 0,
        },
        Err(refusal) => HostSpanFrames {
            frames: 0,
            remainder: 0,
            refusal: u32::from(refusal),
            spare: 0,
        },
    }
}

// The mean of samples, given as bytes, 8 a sample, low byte first: 0, and the mean in the 8 bytes of the answer. Or 1 where samples needed or
// rate are out of range, else 8 where the bytes are not the samples to store or the answer has no 8 bytes; the answer is zeroed then.
// The arguments are plain numbers and bytes, as C hands them over.
#[tactic(auto, unfolding(crate::specs::Mean::mean_answer_of, crate::specs::Mean::mean_of_stored))]
pub fn kadwunge_mean_of_samples(needed: u32, rate: f64, samples: &[u8], answer: &mut [u8]) -> u32
    ensures { AnswersMean needed rate samples.now (length answer.old) result answer.new }
{
    let sampling = Sampling { needed, rate };
    match mean_of_bytes(sampling, samples, answer.len()) {
        Ok(mean) => {
            put(answer, std::num::f64_to_bits_with_nan(mean));
            0
        }
        Err(refusal) => {
            clear(answer);
            u32::from(refusal)
        }
    }
}

// The mean of samples as bytes, where the answer has room for `room` bytes.
#[tactic(auto, using(crate::proofs::Chunks::reading), unfolding(crate::specs::Mean::mean_of_stored, crate::specs::Mean::mean_answer_of))]
fn mean_of_bytes(sampling: Sampling, samples: &[u8], room: usize) -> Result<f64, Refusal>
    ensures { result ≡ mean_answer_of sampling.needed sampling.rate samples.now room }
{
    require(sampling.passes(), Refusal::Settings)?;
    let n = sampling.to_store();
    require(samples.len() == 8 * n && room == 8, Refusal::Samples)?;
    let (words, _) = samples.as_chunks::<8>();
    mean_of_words(words, sampling.to_discard())
}

// The mean of samples of 8 bytes each, where each is finite and within 2^33.
#[tactic(auto, using(crate::proofs::Chunks::all_taken))]
fn mean_of_words(words: &[[u8; 8]], discard: usize) -> Result<f64, Refusal>
    requires { length words.now ≤ sample_room }
    ensures { result ≡ judged_mean discard (map float_in words.now) }
{
    let mut room = [0.0; SAMPLE_ROOM];
    let floats = &mut room[..words.len()];
    read_floats(words, floats);
    require(mean::all_sound(floats), Refusal::Samples)?;
    Ok(mean::mean_of(floats, discard))
}

// Reads a float of each word, low byte first. (By an index, since a proof knows nothing of what a zip with `out.iter_mut()` wrote.)
fn read_floats(words: &[[u8; 8]], out: &mut [f64])
    requires { length out.old ≡ length words.now }
    ensures { out.new ≡ map float_in words.now }
{
    for (i, word) in words.iter().enumerate() {
        out[i] = std::num::f64_from_bits_with_nan(u64::from_le_bytes(*word));
    }
}

// Writes a number into 8 bytes, low byte first.
fn put(out: &mut [u8], n: u64)
    requires { length out.old ≡ 8 }
    ensures { out.new ≡ bytes_of n }
{
    out.copy_from_slice(&n.to_le_bytes());
}

// Zeroes every byte.
fn clear(out: &mut [u8])
    ensures { out.new ≡ replicate (length out.old) 0 }
{
    out.fill(0);
}
