// What every update ends with: the test of its tween weight, the time to display, the base's stamp and the last queued stamp (`post_update` of
// src/client.rs and the display state's time in src/world/display_state.rs of crystalorb).
ghost use Rattle.std.specs.Prelude.{◌≡◌};
ghost use Rattle.client_publish.specs.Ending.{weight_ok, time_of, displayed_of, revised_of, post_update_of};

use client::{ClientWorldSimulations, Published, status};
use timestamp::{FloatTimestamp, Timestamp};

// Whether a tween weight is in 0 to 1; false for a NaN. Where it is not, the Rust stops: refusal 27.
#[tactic(auto, unfolding(crate::specs::Ending::weight_ok))]
pub fn is_weight(t: f64) -> bool
    ensures { result ≡ weight_ok t }
{
    timestamp::within(0.0, 1.0, t)
}

// The time between two stamps at a weight, not wrapped.
#[tactic(auto, unfolding(crate::specs::Ending::time_of))]
pub(crate) fn time_between(before: Timestamp, after: Timestamp, t: f64) -> f64
    ensures { result ≡ time_of before after t }
{
    let from = FloatTimestamp::from(before);
    let difference = FloatTimestamp::from(after - before);
    from.0 + t * difference.0
}

// The displayed time: worked out anew where two states are published.
#[tactic(auto, unfolding(crate::specs::Ending::displayed_of))]
pub fn displayed(p: Published, t: f64) -> Published
    ensures { result ≡ displayed_of p t }
{
    let (Some(before), Some(after)) = (p.before, p.after) else {
        return p;
    };
    Published {
        time: Some(time_between(before, after, t)),
        ..p
    }
}

// The last queued stamp, set anew where it cannot be compared with the client's stamp or is later than it.
#[tactic(auto, unfolding(crate::specs::Ending::revised_of))]
pub fn revised(last: Option<Timestamp>, old: Timestamp, lag: u16) -> Option<Timestamp>
    ensures { result ≡ revised_of last old lag }
{
    let l = last?;
    if l.in_comparable_range(old) && !status::is_later(l, old) {
        return last;
    }
    Some(old - lag - lag)
}

// What every update ends with: the displayed time at a shaped weight, the base's stamp, and the last queued stamp.
#[tactic(auto, using(crate::proofs::Displaying::post_is))]
pub fn post_update(worlds: &mut ClientWorldSimulations, t: f64, lag: u16)
    ensures { worlds.exit.now ≡ post_update_of worlds.entry.now t lag }
{
    let old = worlds.last_completed_timestamp();
    worlds.published = displayed(worlds.published, t);
    worlds.base.update_timestamp(old);
    worlds.snapshots.lastqueued = revised(worlds.snapshots.lastqueued, old, lag);
}
