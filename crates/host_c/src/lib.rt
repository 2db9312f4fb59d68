// The functions of `host` under their C names, with its contracts: the static library that hosts in C and Rust link as libhost.a.
// The header include/kadwunge.h declares them. Every argument is answered; none is required to be anything.
#![tactic(auto)]

ghost use Rattle.std.specs.Prelude.{◌≡◌, length};
ghost use Rattle.timestamp.specs.Timestamps.{bits_of, order_of, order_number};
ghost use Rattle.film_rate.specs.Spans.{span_frames_of};
ghost use Rattle.host.specs.Host.{frame_stamp_of};
ghost use Rattle.host.specs.Mean.{AnswersMean};
ghost use Rattle.host.specs.Spans.{host_span_of};

use host::HostSpanFrames;

// The order of two stamps, the first against the second: -1, 0 or 1.
#[unsafe(no_mangle)]
pub extern "C" fn kadwunge_stamp_order(first: i16, second: i16) -> i32
    ensures { result ≡ order_number (order_of (bits_of first) (bits_of second)) }
{
    host::kadwunge_stamp_order(first, second)
}

// The stamp of the frame at a time, cut toward zero, as a signed number; 65,537 for a timestep out of range, else 65,538 for seconds out of range.
#[unsafe(no_mangle)]
pub extern "C" fn kadwunge_frame_stamp(seconds: f64, timestep: f64) -> i32
    ensures { result ≡ frame_stamp_of seconds timestep }
{
    host::kadwunge_frame_stamp(seconds, timestep)
}

// The whole frames of a span of microseconds at p over q frames a second, and the remainder; or 31, both being 0 then.
// The arguments are plain numbers, as C hands them over.
#[unsafe(no_mangle)]
pub extern "C" fn kadwunge_frames_of_span(span: u64, p: u32, q: u32) -> HostSpanFrames
    ensures { result ≡ host_span_of (span_frames_of span p q) }
{
    host::kadwunge_frames_of_span(span, p, q)
}

// The mean of samples, given as bytes, 8 a sample, low byte first: 0, and the mean in the 8 bytes of the answer. Or 1 where samples needed or
// rate are out of range, else 8 where the bytes are not the samples to store or the answer has no 8 bytes; the answer is zeroed then.
// The arguments are plain numbers and bytes, as C hands them over.
#[unsafe(no_mangle)]
pub extern "C" fn kadwunge_mean_of_samples(
    needed: u32,
    rate: f64,
    samples: &[u8],
    answer: &mut [u8],
) -> u32
    ensures { AnswersMean needed rate samples.now (length answer.old) result answer.new }
{
    host::kadwunge_mean_of_samples(needed, rate, samples, answer)
}
