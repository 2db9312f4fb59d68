// One frame (`step` of src/client.rs of crystalorb): what its status opens it with, a step of the old world, the catching up of the new one, and what is
// published.
#![tactic(auto)]

ghost use Rattle.std.specs.Prelude.{◌≡◌, ◌+◌, ◌*◌, ◌<◌, ◌≤◌};
ghost use Rattle.refusals.specs.Limits.{most_steps, buffer_room};
ghost use Rattle.tape.specs.Sides.{side_number};
ghost use Rattle.tape.specs.Tape.{count_end, publish_room};
ghost use Rattle.simulation.specs.World.{step_room};
ghost use Rattle.client.specs.Sides.{Plays, old_stamp_of};
ghost use Rattle.client_publish.specs.Inner.{States};
ghost use Rattle.client_frame.specs.Frame.{loads_of, loaded_queued, blended_on, reset_new, opened_of, caught_up_of, caught_of, simulated_of};
ghost use Rattle.client_frame.specs.Frame.{blended_by, published_by, is_obsolete, too_far_of, shown_of, frame_of, frame_stops, Frames, most_frame_words};
ghost use Rattle.client_frame.specs.Inner.{start_of, stops_by};

use client::{
    ClientWorldSimulations, FastforwardingHealth, QueuedSnapshot, ReconciliationStatus, Scene,
};
use tape::{Side, Tape};
use timestamp::Timestamp;

// What a frame goes by: the most steps of the new world to catch up, and how far a blend's weight moves on. Each contract bounds the steps: settings
// that do not pass have their answers too, so no type can.
#[derive(Clone, Copy)]
pub struct Rules {
    pub m: u32,
    pub progress: f64,
}

// There are so many stamps up to the one half the space away.
const HALF_CYCLE: u16 = 1 << 15;

// What a frame begins with: where the reconciliation stands, the snapshot that the frame loads, and the stamps of both worlds. Its methods are handed the
// scene and the tape, two states that they change.
#[derive(Clone, Copy)]
pub struct FrameStart {
    pub status: ReconciliationStatus,
    pub loads: Option<QueuedSnapshot>,
    pub old: Timestamp,
    pub new: Timestamp,
}

impl FrameStart {
    // What the next frame of these worlds begins with.
    #[tactic(auto, unfolding(crate::specs::Inner::start_of))]
    pub fn of(worlds: &ClientWorldSimulations) -> FrameStart
        ensures { result ≡ start_of worlds.now }
    {
        let status = worlds.infer_current_reconciliation_status();
        FrameStart {
            status,
            loads: loads(status, worlds.snapshots.queued),
            old: worlds.last_completed_timestamp(),
            new: worlds.new_timestamp(),
        }
    }

    // The status opens the frame: awaiting, the queued snapshot is loaded into the old side, which then is the new one; blending, the weight moves on;
    // obsolete, it is loaded; overshot, the new world is reset.
    #[tactic(auto, unfolding(crate::specs::Frame::opened_of))]
    pub(crate) fn open(self, scene: &mut Scene, progress: f64, tape: &mut Tape<'_>)
        requires { tape.old.at + buffer_room ≤ count_end }
        ensures plays { Plays (opened_of self.status self.loads progress scene.old) tape.old scene.new tape.new }
        ensures few { tape.new.at ≤ tape.old.at + buffer_room }
    {
        match self.status {
            ReconciliationStatus::AwaitingSnapshot => {
                let side = scene.worlds.old_side();
                load_queued(scene, self.loads, side, tape);
            }
            ReconciliationStatus::Blending(_) => blend_on(scene, progress),
            ReconciliationStatus::Fastforwarding(h) => match h {
                FastforwardingHealth::Healthy => {}
                FastforwardingHealth::Obsolete => {
                    let side = scene.worlds.new_side();
                    load_queued(scene, self.loads, side, tape);
                }
                FastforwardingHealth::Overshot => reset_new(scene, tape),
            },
        }
    }

    // Whether the frame publishes by the weight and not the old world.
    pub fn is_blended(self) -> bool
        ensures { result ≡ blended_by self.status self.loads }
    {
        match self.status {
            ReconciliationStatus::AwaitingSnapshot => self.loads.is_none(),
            ReconciliationStatus::Blending(_) => true,
            ReconciliationStatus::Fastforwarding(h) => matches!(h, FastforwardingHealth::Overshot),
        }
    }

    // The state that the frame publishes: by the weight, or the old world.
    pub(crate) fn publish_state(self, scene: &Scene, tape: &mut Tape<'_>) -> Option<Timestamp>
        requires { tape.old.at + publish_room ≤ count_end }
        ensures { States (published_by (blended_by self.status self.loads) scene.now) scene.now tape.old result tape.new }
    {
        if self.is_blended() {
            return client_publish::publish_blended_state(scene, tape);
        }
        client_publish::publish_old_state(scene, tape)
    }

    // What the frame publishes.
    pub(crate) fn publish(self, scene: &mut Scene, tape: &mut Tape<'_>)
        requires { tape.old.at + publish_room ≤ count_end }
        ensures plays { Plays (published_by (blended_by self.status self.loads) scene.old) tape.old scene.new tape.new }
        ensures few { tape.new.at ≤ tape.old.at + publish_room }
    {
        let state = self.publish_state(scene, tape);
        client_publish::with_state(scene, state);
    }

    // The worlds' steps and what is published.
    pub(crate) fn show(self, scene: &mut Scene, m: u32, tape: &mut Tape<'_>)
        requires { (tape.old.at + (publish_room + (step_room + m * step_room)) ≤ count_end) × (m ≤ most_steps) }
        ensures plays { Plays (shown_of m (blended_by self.status self.loads) scene.old) tape.old scene.new tape.new }
        ensures few { tape.new.at ≤ tape.old.at + (publish_room + (step_room + m * step_room)) }
    {
        simulate_next_frame(scene, m, tape);
        self.publish(scene, tape);
    }

    // Whether the Rust stops in the frame, which leaves the worlds `after`: refusal 26.
    #[tactic(auto, unfolding(crate::specs::Inner::stops_by))]
    pub(crate) fn stops(self, after: &ClientWorldSimulations) -> bool
        ensures { result ≡ stops_by self.status self.loads self.old self.new after.now }
    {
        let ReconciliationStatus::Fastforwarding(h) = self.status else {
            return false;
        };
        match h {
            FastforwardingHealth::Healthy => {
                (self.old - self.new).0 == HALF_CYCLE
                    || is_obsolete(after.infer_current_reconciliation_status())
            }
            FastforwardingHealth::Obsolete => loads_too_far(self.loads, self.old),
            FastforwardingHealth::Overshot => false,
        }
    }
}

// One frame. Gives whether the Rust would have stopped in it.
pub fn step(scene: &mut Scene, rules: Rules, tape: &mut Tape<'_>) -> bool
    requires { (tape.old.at + most_frame_words ≤ count_end) × (rules.m ≤ most_steps) }
    ensures frames { Frames (frame_of rules scene.old) (frame_stops rules scene.old) tape.old scene.new result tape.new }
    ensures few { tape.new.at ≤ tape.old.at + most_frame_words }
{
    let start = FrameStart::of(&scene.worlds);
    start.open(scene, rules.progress, tape);
    start.show(scene, rules.m, tape);
    start.stops(&scene.worlds)
}

// The snapshot that a frame of this status loads.
pub(crate) fn loads(t: ReconciliationStatus, q: Option<QueuedSnapshot>) -> Option<QueuedSnapshot>
    ensures { result ≡ loads_of t q }
{
    match t {
        ReconciliationStatus::AwaitingSnapshot
        | ReconciliationStatus::Fastforwarding(FastforwardingHealth::Obsolete) => q,
        _ => None,
    }
}

// The weight moved on by one frame, within 0 to 1.
#[tactic(auto, unfolding(crate::specs::Frame::blended_on))]
pub(crate) fn blend_on(scene: &mut Scene, progress: f64)
    ensures { scene.new ≡ blended_on scene.old progress }
{
    scene.worlds.weight = (scene.worlds.weight + progress).clamp(0.0, 1.0);
}

// The new world is set to the old one's stamp.
#[tactic(auto, unfolding(crate::specs::Frame::reset_new))]
pub(crate) fn reset_new(scene: &mut Scene, tape: &mut Tape<'_>)
    requires { tape.old.at + buffer_room ≤ count_end }
    ensures plays { Plays (reset_new scene.old) tape.old scene.new tape.new }
    ensures few { tape.new.at ≤ tape.old.at + buffer_room }
{
    let side = scene.worlds.new_side();
    let old = scene.worlds.last_completed_timestamp();
    scene.reset_side(side, old, tape);
}

// The queued snapshot is loaded into a side, where there is one.
#[tactic(auto, unfolding(crate::specs::Frame::loaded_queued))]
pub(crate) fn load_queued(
    scene: &mut Scene,
    queued: Option<QueuedSnapshot>,
    side: Side,
    tape: &mut Tape<'_>,
)
    requires { tape.old.at < count_end }
    ensures plays { Plays (loaded_queued scene.old queued (side_number side)) tape.old scene.new tape.new }
    ensures few { tape.new.at ≤ tape.old.at + 1 }
{
    match queued {
        None => {}
        Some(snapshot) => client_load::load_snapshot(scene, side, snapshot, tape),
    }
}

// Whether the new world has reached the old one's stamp.
#[tactic(auto, unfolding(crate::specs::Frame::caught_up_of))]
pub(crate) fn has_caught_up(new: Timestamp, old: Timestamp) -> bool
    ensures { result ≡ caught_up_of new old }
{
    new.cmp(old).is_ge()
}

// The new world steps until it has reached the old one's stamp, m times at most: m is the one number of `Rules` that the steps go by, and it goes with the
// scene and the tape as two states that are changed. Its buffer is read once for all of the next steps that leave it as it is.
pub(crate) fn catch_up(scene: &mut Scene, m: u32, tape: &mut Tape<'_>)
    requires { (tape.old.at + m * step_room ≤ count_end) × (m ≤ most_steps) }
    ensures plays { Plays (caught_of m (old_stamp_of scene.old.worlds) scene.old) tape.old scene.new tape.new }
    ensures few { tape.new.at ≤ tape.old.at + m * step_room }
{
    let old = scene.worlds.last_completed_timestamp();
    let mut quiet = 0;
    for _ in 0..m {
        if has_caught_up(scene.worlds.new_timestamp(), old) {
            return;
        }
        let side = scene.worlds.new_side();
        scene.step_side_known(side, &mut quiet, tape);
        scene.steps = scene.steps.wrapping_add(1);
    }
}

// The old world steps, and then the new one catches up.
pub(crate) fn simulate_next_frame(scene: &mut Scene, m: u32, tape: &mut Tape<'_>)
    requires { (tape.old.at + (step_room + m * step_room) ≤ count_end) × (m ≤ most_steps) }
    ensures plays { Plays (simulated_of m scene.old) tape.old scene.new tape.new }
    ensures few { tape.new.at ≤ tape.old.at + (step_room + m * step_room) }
{
    let side = scene.worlds.old_side();
    scene.step_side(side, tape);
    catch_up(scene, m, tape);
}

// Whether a status is Fastforwarding with Obsolete.
pub fn is_obsolete(t: ReconciliationStatus) -> bool
    ensures { result ≡ is_obsolete t }
{
    matches!(
        t,
        ReconciliationStatus::Fastforwarding(FastforwardingHealth::Obsolete)
    )
}

// Whether an obsolete world loads a snapshot 2 or more frames ahead of the old world, or half the space away.
#[tactic(auto, unfolding(crate::specs::Frame::too_far_of))]
pub fn loads_too_far(q: Option<QueuedSnapshot>, old: Timestamp) -> bool
    ensures { result ≡ too_far_of q old }
{
    q.is_some_and(|snapshot| {
        let behind = (old - snapshot.stamp).0;
        (HALF_CYCLE..u16::MAX).contains(&behind)
    })
}
