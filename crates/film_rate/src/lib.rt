// The whole frames of a span of time at a rate of p over q frames a second, and what is left over, in whole numbers alone: nothing is rounded.
// It is request 1 of document 02 and answers to no file of crystalorb.
#![tactic(auto)]

ghost use Rattle.std.specs.Prelude.{◌≡◌, ◌&&◌, true};
ghost use Rattle.film_rate.specs.Spans.{rate_part_passes, span_passes, counted_of, span_frames_of};

use refusals::Refusal;

// The microseconds of a second.
const SECOND: u64 = 1000000;

// A rate: p over q frames a second.
#[derive(Clone, Copy)]
pub struct Rate {
    pub p: u32,
    pub q: u32,
}

// The frames of a span.
#[derive(Clone, Copy)]
pub struct SpanFrames {
    // whole frames
    pub frames: u64,
    // what is left over, in parts: p of them are a microsecond, and q * 1,000,000 a frame
    pub remainder: u64,
}

// Whether a part of a rate is in its range.
#[tactic(auto, unfolding(crate::specs::Spans::rate_part_passes))]
fn rate_part_passes(n: u32) -> bool
    ensures { result ≡ rate_part_passes n }
{
    (1..=refusals::MOST_RATE_PART).contains(&n)
}

impl Rate {
    // Whether both parts are in their range.
    fn passes(self) -> bool
        ensures { result ≡ rate_part_passes self.p && rate_part_passes self.q }
    {
        rate_part_passes(self.p) && rate_part_passes(self.q)
    }
}

// Whether a span and a rate are in their ranges.
#[tactic(auto, unfolding(crate::specs::Spans::span_passes))]
fn span_passes(span: u64, rate: Rate) -> bool
    ensures { result ≡ span_passes span rate.p rate.q }
{
    span <= refusals::LONGEST_SPAN && rate.passes()
}

// The frames of a span in range. The product stays below 2^56 and the divisor below 2^36, so neither overflows.
#[tactic(auto, using(crate::proofs::Ranges::in_range_lem))]
fn counted(span: u64, rate: Rate) -> SpanFrames
    requires { span_passes span rate.p rate.q ≡ true }
    ensures { result ≡ counted_of span rate.p rate.q }
{
    let parts = span * u64::from(rate.p);
    let frame = u64::from(rate.q) * SECOND;
    SpanFrames {
        frames: parts / frame,
        remainder: parts % frame,
    }
}

// The whole frames of a span of microseconds at a rate, and the remainder; refused where the span or a part of the rate is out of its range.
#[tactic(auto, unfolding(crate::specs::Spans::span_frames_of))]
pub fn frames_of_span(span: u64, rate: Rate) -> Result<SpanFrames, Refusal>
    ensures { result ≡ span_frames_of span rate.p rate.q }
{
    refusals::require(span_passes(span, rate), Refusal::Span)?;
    Ok(counted(span, rate))
}
