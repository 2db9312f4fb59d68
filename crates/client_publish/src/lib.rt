// What a frame publishes: the old world, the new one, a mix of both, or nothing (src/world/display_state.rs of crystalorb).
#![tactic(auto)]

ghost use Rattle.std.specs.Prelude.{◌≡◌, ◌+◌, ◌≤◌};
ghost use Rattle.tape.specs.Sides.{side_number};
ghost use Rattle.tape.specs.Tape.{count_end, publish_room};
ghost use Rattle.client_publish.specs.Publish.{with_state, published_none, published_side, published_mix, published_old, near_one, published_both};
ghost use Rattle.client_publish.specs.Publish.{published_blended};
ghost use Rattle.client_publish.specs.Inner.{States};

use client::Scene;
use tape::{Side, Tape};
use timestamp::Timestamp;

pub mod ending;

// The published states move on by one: the last one is now the one before.
pub fn with_state(scene: &mut Scene, state: Option<Timestamp>)
    ensures { scene.new ≡ with_state scene.old state }
{
    let published = &mut scene.worlds.published;
    published.before = published.after;
    published.after = state;
}

// Nothing is published: neither world has had a snapshot. Each of these functions gives the state that it publishes; this one is handed the scene for its
// contract alone, which is that of the others.
pub(crate) fn publish_none(s: &Scene, tape: &mut Tape<'_>) -> Option<Timestamp>
    requires { tape.old.at + publish_room ≤ count_end }
    ensures { States (published_none s.now) s.now tape.old result tape.new }
{
    tape.put(tape::none_word());
    None
}

// The world of a side is published as it is.
pub(crate) fn publish_side(s: &Scene, side: Side, tape: &mut Tape<'_>) -> Option<Timestamp>
    requires { tape.old.at + publish_room ≤ count_end }
    ensures { States (published_side s.now (side_number side)) s.now tape.old result tape.new }
{
    let stamp = s.worlds.get_side(side).stamp();
    tape.put(tape::publish_word(side));
    Some(stamp)
}

// A mix of both worlds is published, with the weight of the new one.
pub(crate) fn publish_mix(s: &Scene, weight: f64, tape: &mut Tape<'_>) -> Option<Timestamp>
    requires { tape.old.at + publish_room ≤ count_end }
    ensures { States (published_mix s.now weight) s.now tape.old result tape.new }
{
    let stamp = s.worlds.last_completed_timestamp();
    tape.put_mix(weight);
    Some(stamp)
}

// The old world is published, where a snapshot has initialised it.
pub fn publish_old_state(s: &Scene, tape: &mut Tape<'_>) -> Option<Timestamp>
    requires { tape.old.at + publish_room ≤ count_end }
    ensures { States (published_old s.now) s.now tape.old result tape.new }
{
    let side = s.worlds.old_side();
    let old = s.worlds.get_side(side);
    if old.init {
        return publish_side(s, side, tape);
    }
    publish_none(s, tape)
}

// Whether a weight is so near to 1 that the new world is published as it is: less than 2^-52 away.
pub fn is_near_one(weight: f64) -> bool
    ensures { result ≡ near_one weight }
{
    (weight - 1.0).abs() < f64::EPSILON
}

// Both worlds are initialised: the old one at weight 0, the new one near weight 1, and a mix in between.
pub(crate) fn publish_both(s: &Scene, tape: &mut Tape<'_>) -> Option<Timestamp>
    requires { tape.old.at + publish_room ≤ count_end }
    ensures { States (published_both s.now) s.now tape.old result tape.new }
{
    let t = s.worlds.weight;
    if t == 0.0 {
        return publish_side(s, s.worlds.old_side(), tape);
    }
    if is_near_one(t) {
        return publish_side(s, s.worlds.new_side(), tape);
    }
    publish_mix(s, t, tape)
}

// The worlds are published by the weight; with the old one not initialised the new one, and nothing where that is not either.
pub fn publish_blended_state(s: &Scene, tape: &mut Tape<'_>) -> Option<Timestamp>
    requires { tape.old.at + publish_room ≤ count_end }
    ensures { States (published_blended s.now) s.now tape.old result tape.new }
{
    let old = s.worlds.get_side(s.worlds.old_side());
    if old.init {
        return publish_both(s, tape);
    }
    let side = s.worlds.new_side();
    let new = s.worlds.get_side(side);
    if new.init {
        return publish_side(s, side, tape);
    }
    publish_none(s, tape)
}
