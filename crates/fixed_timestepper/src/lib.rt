// The stepping of the worlds by the clock: `TimeKeeper` of src/fixed_timestepper.rs of crystalorb. Every float operation is the Rust's,
// in its order.
#![tactic(auto)]

ghost use Rattle.std.specs.Prelude.{◌≡◌, true, ◌+◌, ◌*◌, ◌≤◌};
ghost use Rattle.fixed_timestepper.specs.TimeKeeper.{at_least_zero, logical_of, drift_of, beyond_deadband, compensated_of, rules_of, run_of, skips_of};
ghost use Rattle.fixed_timestepper.specs.TimeKeeper.{Advances};
ghost use Rattle.fixed_timestepper.specs.TimeKeeper.{ended_of, unended_of};
ghost use Rattle.fixed_timestepper.specs.Inner.{Skips, keeper_after};
ghost use Rattle.refusals.specs.Limits.{most_frames, most_steps, buffer_room};
ghost use Rattle.timestamp.specs.Floats.{tween_of};
ghost use Rattle.tape.specs.Tape.{count_end};
ghost use Rattle.client_frame.specs.Frame.{most_frame_words};

use client::{ClientWorldSimulations, Scene};
use client_frame::Rules;
use refusals::Stop;
use settings::Settings;
use tape::Tape;
use timestamp::{FloatTimestamp, Timestamp};

// What an update goes by: the settings, and how far the worlds are past the client's time, in seconds. The stamp is the worlds' and the server's time
// that of the call, so both are handed in.
#[derive(Clone, Copy)]
pub struct TimeKeeper {
    pub settings: Settings,
    pub overshoot: f64,
}

// Frames that were played: how many, the overshoot after them, the next place on the tape, and why they ended.
#[derive(Clone, Copy)]
pub struct Advanced {
    pub overshoot: f64,
    pub frames: u32,
    pub at: usize,
    pub stop: Stop,
}

// A number, or +0.0 where it is not above 0. Not std's `max`, which leaves open which of two zeros it gives.
pub(crate) fn at_least_zero(x: f64) -> f64
    ensures { result ≡ at_least_zero x }
{
    if x > 0.0 {
        return x;
    }
    0.0
}

// The drift that is compensated: none where it is below half a timestep.
pub(crate) fn beyond_deadband(drift: f64, timestep: f64) -> f64
    ensures { result ≡ beyond_deadband drift timestep }
{
    if drift.abs() < timestep * 0.5 {
        return 0.0;
    }
    drift
}

// What every frame under these settings goes by.
pub fn frame_rules(settings: Settings) -> Rules
    ensures { result ≡ rules_of settings }
{
    let progress = settings.blend_progress_per_frame();
    Rules {
        m: settings.m,
        progress,
    }
}

// Methods that play are handed the scene and the tape: two states that they change, and that the keeper does not have.
impl TimeKeeper {
    // The frame count that the worlds stand for: the client's stamp less the overshoot in frames.
    #[tactic(auto, unfolding(crate::specs::TimeKeeper::logical_of))]
    pub(crate) fn current_logical_timestamp(self, stamp: Timestamp) -> FloatTimestamp
        ensures { result.0 ≡ logical_of stamp self.overshoot self.settings.timestep }
    {
        let overshoot = FloatTimestamp::from_seconds(self.overshoot, self.settings.timestep);
        FloatTimestamp::from(stamp) - overshoot
    }

    // How far the worlds are ahead of the server's time, in seconds.
    #[tactic(auto, unfolding(crate::specs::TimeKeeper::drift_of))]
    pub(crate) fn timestamp_drift_seconds(self, stamp: Timestamp, server: f64) -> f64
        ensures { result ≡ drift_of stamp self.overshoot self.settings.timestep server }
    {
        let t = self.settings.timestep;
        let target = FloatTimestamp::from_seconds(server, t);
        (self.current_logical_timestamp(stamp) - target).as_seconds(t)
    }

    // How many seconds an update plays: its delta less the drift before it, not negative and at most the maximum.
    #[tactic(auto, unfolding(crate::specs::TimeKeeper::compensated_of, crate::specs::TimeKeeper::uncapped_of))]
    pub fn compensated_delta(self, stamp: Timestamp, delta: f64, server: f64) -> f64
        ensures { result ≡ compensated_of stamp self.overshoot delta server self.settings }
    {
        let drift = beyond_deadband(
            self.timestamp_drift_seconds(stamp, server - delta),
            self.settings.timestep,
        );
        let uncapped = at_least_zero(delta - drift);
        // not std's `min`, which leaves open which of two zeros it gives
        if uncapped > self.settings.max {
            return self.settings.max;
        }
        uncapped
    }

    // Whether there is a skip: the drift is at or beyond the threshold.
    #[tactic(auto, using(timestamp::proofs::Size::size_least), unfolding(crate::specs::TimeKeeper::skips_of))]
    pub fn skips(self, stamp: Timestamp, server: f64) -> bool
        ensures { result ≡ skips_of stamp self.overshoot server self.settings }
    {
        self.timestamp_drift_seconds(stamp, server).abs() >= self.settings.skip
    }

    // The skip after frames that were played, where the drift is at or beyond the threshold: to the server's frame, rounded up.
    pub(crate) fn timeskip(
        self,
        scene: &mut Scene,
        a: Advanced,
        server: f64,
        tape: &mut Tape<'_>,
    ) -> Advanced
        requires { (a.at ≡ tape.old.at) × (tape.old.at + 2 * buffer_room ≤ count_end) }
        ensures skips { Skips scene.old a server self.settings tape.old.words.now scene.new result tape.new.words.now }
        ensures lent { tape.new.words.ghost_name ≡ tape.old.words.ghost_name }
    {
        let t = self.settings.timestep;
        let stamp = scene.worlds.last_completed_timestamp();
        if !self.after(a).skips(stamp, server) {
            return a;
        }
        let target = FloatTimestamp::from_seconds(server, t);
        let corrected = target.ceil();
        let overshoot = (FloatTimestamp::from(corrected) - target).as_seconds(t);
        client_skip::reset_last_completed_timestamp(scene, corrected, tape);
        Advanced {
            overshoot,
            at: tape.at,
            ..a
        }
    }

    // The same settings after frames that were played.
    pub fn after(self, a: Advanced) -> TimeKeeper
        ensures { result ≡ keeper_after self a }
    {
        TimeKeeper {
            overshoot: a.overshoot,
            ..self
        }
    }

    // The weight of the state after the displayed time, not yet shaped.
    pub fn tween_weight(self) -> f64
        ensures { result ≡ tween_of self.overshoot self.settings.timestep }
    {
        1.0 - self.overshoot / self.settings.timestep
    }

    // What every update ends with: the tween weight is shaped, and the time to display is worked out with it.
    pub fn ended(self, worlds: &mut ClientWorldSimulations)
        ensures { worlds.exit.now ≡ ended_of self.settings worlds.entry.now self.overshoot }
    {
        let shaped = self
            .settings
            .method
            .shape_interpolation_t(self.tween_weight());
        let lag = self.settings.lag_compensation_frame_count();
        client_publish::ending::post_update(worlds, shaped, lag);
    }

    // Frames while the overshoot is negative, 65 at most.
    pub(crate) fn advance(self, scene: &mut Scene, tape: &mut Tape<'_>) -> Advanced
        requires { (self.settings.m ≤ most_steps) × (tape.old.at ≡ 0) }
        ensures advances { Advances (run_of most_frames self.settings scene.old self.overshoot) tape.old.words.now scene.new result tape.new.words.now }
        ensures few { result.at ≤ most_frames * most_frame_words }
        ensures at { result.at ≡ tape.new.at }
        ensures lent { tape.new.words.ghost_name ≡ tape.old.words.ghost_name }
    {
        let rules = frame_rules(self.settings);
        let mut o = self.overshoot;
        for n in 0..refusals::MOST_FRAMES {
            if !(o < 0.0) {
                return Advanced {
                    overshoot: o,
                    frames: n,
                    at: tape.at,
                    stop: Stop::Done,
                };
            }
            let stops = client_frame::step(scene, rules, tape);
            o += self.settings.timestep;
            if stops {
                return Advanced {
                    overshoot: o,
                    frames: n + 1,
                    at: tape.at,
                    stop: Stop::StatusStops,
                };
            }
        }
        let stop = if o < 0.0 {
            Stop::TooManyFrames
        } else {
            Stop::Done
        };
        Advanced {
            overshoot: o,
            frames: refusals::MOST_FRAMES,
            at: tape.at,
            stop,
        }
    }

    // The frames and the skip of an update, by the delta and the server's time. What it ends with is left to the caller, who first looks at
    // all refusals.
    pub fn update(self, scene: &mut Scene, delta: f64, server: f64, tape: &mut [u32]) -> Advanced
        requires { self.settings.m ≤ most_steps }
        ensures { Advances (unended_of self.settings scene.old self.overshoot delta server) tape.old scene.new result tape.new }
    {
        let stamp = scene.worlds.last_completed_timestamp();
        let c = self.compensated_delta(stamp, delta, server);
        let start = TimeKeeper {
            overshoot: self.overshoot - c,
            ..self
        };
        let mut tape = Tape { words: tape, at: 0 };
        let a = start.advance(scene, &mut tape);
        match a.stop {
            Stop::Done => self.timeskip(scene, a, server, &mut tape),
            Stop::TooManyFrames | Stop::StatusStops => a,
        }
    }
}
