// The stages of a session: what `StageOwned::update` of src/client/stage.rs of crystalorb decides at an update's end, and the first stamp of
// `ActiveClient::new` of src/client.rs.
#![tactic(auto)]

ghost use Rattle.std.specs.Prelude.{◌≡◌};
ghost use Rattle.session_stage.specs.Stage.{synced_of, stage_after};

use client::ClientWorldSimulations;
use clocksync::Clock;
use session_state::{Session, Stage};
use timestamp::Timestamp;

// A session after an update in the first stage: it has this clock, and the worlds are made where that is ready.
#[tactic(auto, unfolding(crate::specs::Stage::synced_of))]
pub fn synced(session: &mut Session, clock: Clock, seconds: f64)
    ensures { session.new ≡ synced_of session.old clock seconds }
{
    session.clock = clock;
    if !clock.is_ready() {
        return;
    }
    // a ready clock tells the server's time
    let Some(server) = clock.server_seconds(seconds) else {
        return;
    };
    let stamp = Timestamp::from_seconds(server, session.settings.timestep);
    session.stage = Stage::SyncingInitialState;
    session.worlds = ClientWorldSimulations::new(stamp);
    session.overshoot = 0.0;
}

// The stage after an update: Ready once there is something to display.
pub fn stage_after(stage: Stage, time: Option<f64>) -> Stage
    ensures { result ≡ stage_after stage time }
{
    match stage {
        Stage::SyncingInitialState if time.is_some() => Stage::Ready,
        _ => stage,
    }
}
