// The session of a client, all of its state, and whether it is sound: what calls leave, as document 01 lists it. It answers to `Client` and the stages
// of src/client/stage*.rs of crystalorb.
#![tactic(auto)]

ghost use Rattle.std.specs.Prelude.{◌≡◌};
ghost use Rattle.session_state.specs.Session.{has_worlds, is_ready, starting_of, scene_of};
ghost use Rattle.session_state.specs.Sound.{queued_sound, weight_sound, init_sound, buffers_sound, worlds_sound, overshoot_sound, connected_of, sound_of};

use client::{ClientWorldSimulations, Ledger, QueuedSnapshot, Scene};
use clocksync::Clock;
use settings::Settings;

// How far the client is connected. Worlds exist in every stage but the first.
#[derive(Clone, Copy)]
pub enum Stage {
    SyncingClock,
    SyncingInitialState,
    Ready,
}

impl Stage {
    // Whether worlds exist in the stage.
    pub fn has_worlds(self) -> bool
        ensures { result ≡ has_worlds self }
    {
        !matches!(self, Stage::SyncingClock)
    }

    // Whether the stage is the last one.
    pub fn is_ready(self) -> bool
        ensures { result ≡ is_ready self }
    {
        matches!(self, Stage::Ready)
    }
}

// All state of a client. The worlds and the overshoot are there in each stage: a call has its answer for any session, the unsound one of a refused open
// among them.
#[derive(Clone, Copy)]
pub struct Session {
    pub settings: Settings,
    pub stage: Stage,
    pub clock: Clock,
    pub worlds: ClientWorldSimulations,
    pub overshoot: f64,
}

// A queued snapshot's handle is within 24 bits.
#[tactic(auto, unfolding(crate::specs::Sound::queued_sound))]
pub fn queued_sound(queued: Option<QueuedSnapshot>) -> bool
    ensures { result ≡ queued_sound queued }
{
    queued.is_none_or(|q| q.handle < refusals::HANDLE_ROOM)
}

// The blend weight is 0 to 1, and 0 where the stamps differ.
#[tactic(auto, unfolding(crate::specs::Sound::weight_sound))]
pub(crate) fn weight_sound(w: &ClientWorldSimulations) -> bool
    ensures { result ≡ weight_sound w.now }
{
    if w.last_completed_timestamp() == w.new_timestamp() {
        return timestamp::within(0.0, 1.0, w.weight);
    }
    w.weight == 0.0
}

// The old world is initialised only if the new one is.
#[tactic(auto, unfolding(crate::specs::Sound::init_sound))]
pub(crate) fn init_sound(w: &ClientWorldSimulations) -> bool
    ensures { result ≡ init_sound w.now }
{
    let old = w.get_side(w.old_side());
    let new = w.get_side(w.new_side());
    !old.init || new.init
}

// The three buffers are sound.
#[tactic(auto, unfolding(crate::specs::Sound::buffers_sound))]
pub(crate) fn buffers_sound(w: &ClientWorldSimulations) -> bool
    ensures { result ≡ buffers_sound w.now }
{
    w.left.commands.is_sound() && w.right.commands.is_sound() && w.base.is_sound()
}

// The worlds are sound.
#[tactic(auto, unfolding(crate::specs::Sound::worlds_sound))]
pub(crate) fn worlds_sound(w: &ClientWorldSimulations) -> bool
    ensures { result ≡ worlds_sound w.now }
{
    buffers_sound(w) && queued_sound(w.snapshots.queued) && weight_sound(w) && init_sound(w)
}

// The overshoot is 0 to the timestep.
#[tactic(auto, unfolding(crate::specs::Sound::overshoot_sound))]
pub fn overshoot_sound(overshoot: f64, timestep: f64) -> bool
    ensures { result ≡ overshoot_sound overshoot timestep }
{
    timestamp::within(0.0, timestep, overshoot)
}

// Once worlds exist there is an offset and an id; before, there is no offset.
#[tactic(auto, unfolding(crate::specs::Sound::connected_of))]
pub(crate) fn connected(stage: Stage, c: Clock) -> bool
    ensures { result ≡ connected_of stage c }
{
    match stage {
        Stage::SyncingClock => c.offset.is_none(),
        Stage::SyncingInitialState | Stage::Ready => c.is_ready(),
    }
}

impl Session {
    // A session as settings start it, with this clock and these worlds.
    pub fn starting(settings: Settings, clock: Clock, worlds: ClientWorldSimulations) -> Session
        ensures { result ≡ starting_of settings clock worlds }
    {
        let stage = Stage::SyncingClock;
        Session {
            settings,
            stage,
            clock,
            worlds,
            overshoot: 0.0,
        }
    }

    // The session is sound.
    #[tactic(auto, unfolding(crate::specs::Sound::sound_of))]
    pub fn is_sound(&self) -> bool
        ensures { result ≡ sound_of self.now }
    {
        self.settings.passes()
            && self.clock.is_sound(self.settings)
            && connected(self.stage, self.clock)
            && worlds_sound(&self.worlds)
            && overshoot_sound(self.overshoot, self.settings.timestep)
    }

    // The scene of worlds before anything happened to them.
    pub fn scene(&self) -> Scene
        ensures { result ≡ scene_of self.now }
    {
        Scene {
            worlds: self.worlds,
            left: Ledger::empty(),
            right: Ledger::empty(),
            steps: 0,
        }
    }
}
