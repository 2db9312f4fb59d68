// An update over arrays that a host lends, of any length: the samples of the clock and the slots of the three buffers stay where the host has them, and the
// numbers of the session go by value beside them. It is the update of session, on the session that numbers and arrays are. It answers to `Client::update` of
// src/client.rs of crystalorb.
#![tactic(auto)]

ghost use Rattle.std.specs.Prelude.{◌≡◌, length};
ghost use Rattle.refusals.specs.Limits.{sample_room, buffer_room};
ghost use Rattle.session_answers.specs.Answers.{Leaves};
ghost use Rattle.session_lent.specs.Lent.{world_at, clock_at, worlds_at, session_at, world_in, worlds_in, clock_in, state_in};
ghost use Rattle.session_lent.specs.InPlace.{AllFit, lengths_fit, array_after, lent_with, unfit_of, UpdatesInPlace};

use client::{ClientWorldSimulations, Ledger, Published, Snapshots};
use clocksync::{Clock, Heard};
use command::CommandBuffer;
use refusals::{Refusal, Verdict};
use session::in_place;
use session_answers::Updated;
use session_state::{Session, Stage};
use settings::Settings;
use simulation::Simulation;
use tape::Side;
use timestamp::Timestamp;

// A clock but for its samples: their count stands here.
#[derive(Clone, Copy)]
pub struct ClockNumbers {
    pub offset: Option<f64>,
    pub len: usize,
    pub timer: f64,
    pub id: Option<u32>,
}

// A world but for its slots: how many commands it holds, the stamp of its last completed frame, and whether a snapshot has initialised it.
#[derive(Clone, Copy)]
pub struct World {
    pub len: usize,
    pub stamp: Timestamp,
    pub init: bool,
}

// Both worlds and all that reconciles them, but for the slots: the base by its count and its midpoint.
#[derive(Clone, Copy)]
pub struct Worlds {
    pub left: World,
    pub right: World,
    pub new: Side,
    pub base: usize,
    pub midpoint: Timestamp,
    pub snapshots: Snapshots,
    pub weight: f64,
    pub published: Published,
}

// All of a session but its settings, samples and slots.
#[derive(Clone, Copy)]
pub struct State {
    pub stage: Stage,
    pub clock: ClockNumbers,
    pub worlds: Worlds,
    pub overshoot: f64,
}

// The answer of `update`, with the numbers of the session after it; those that were handed in where it is refused, and every other field 0 or no.
#[derive(Clone, Copy)]
pub struct LentAnswer {
    pub refusal: Verdict,
    pub state: State,
    pub frames: u32,
    pub steps: u32,
    pub request: bool,
    pub left: Ledger,
    pub right: Ledger,
    pub words: usize,
}

// The numbers of a clock.
fn clock_of(c: &Clock) -> ClockNumbers
    ensures { result ≡ clock_in c.now }
{
    ClockNumbers {
        offset: c.offset,
        len: c.len,
        timer: c.timer,
        id: c.id,
    }
}

// The numbers of a world.
fn world_of(s: &Simulation) -> World
    ensures { result ≡ world_in s.now }
{
    World {
        len: s.commands.len,
        stamp: s.commands.timestamp,
        init: s.init,
    }
}

// The numbers of the worlds.
fn worlds_of(w: &ClientWorldSimulations) -> Worlds
    ensures { result ≡ worlds_in w.now }
{
    Worlds {
        left: world_of(&w.left),
        right: world_of(&w.right),
        new: w.new,
        base: w.base.len,
        midpoint: w.base.timestamp,
        snapshots: w.snapshots,
        weight: w.weight,
        published: w.published,
    }
}

// The numbers of a session: all of it but its settings, samples and slots.
pub fn state_of(s: &Session) -> State
    ensures { result ≡ state_in s.now }
{
    State {
        stage: s.stage,
        clock: clock_of(&s.clock),
        worlds: worlds_of(&s.worlds),
        overshoot: s.overshoot,
    }
}

// The clock of numbers and samples.
fn clock_with(c: ClockNumbers, samples: [f64; refusals::SAMPLE_ROOM]) -> Clock
    ensures { result ≡ clock_at samples c }
{
    Clock {
        offset: c.offset,
        samples,
        len: c.len,
        timer: c.timer,
        id: c.id,
    }
}

// A world with its slots.
fn world_with(w: World, entries: [u64; refusals::BUFFER_ROOM]) -> Simulation
    ensures { result ≡ world_at w entries }
{
    Simulation {
        commands: CommandBuffer {
            entries,
            len: w.len,
            timestamp: w.stamp,
        },
        init: w.init,
    }
}

// The worlds with their slots.
fn worlds_with(
    w: Worlds,
    left: [u64; refusals::BUFFER_ROOM],
    right: [u64; refusals::BUFFER_ROOM],
    base: [u64; refusals::BUFFER_ROOM],
) -> ClientWorldSimulations
    ensures { result ≡ worlds_at w left right base }
{
    ClientWorldSimulations {
        left: world_with(w.left, left),
        right: world_with(w.right, right),
        new: w.new,
        base: CommandBuffer {
            entries: base,
            len: w.base,
            timestamp: w.midpoint,
        },
        snapshots: w.snapshots,
        weight: w.weight,
        published: w.published,
    }
}

// The session of numbers, samples and slots.
pub fn session_of(
    settings: Settings,
    s: State,
    samples: [f64; refusals::SAMPLE_ROOM],
    left: [u64; refusals::BUFFER_ROOM],
    right: [u64; refusals::BUFFER_ROOM],
    base: [u64; refusals::BUFFER_ROOM],
) -> Session
    ensures { result ≡ session_at settings s samples left right base }
{
    Session {
        settings,
        stage: s.stage,
        clock: clock_with(s.clock, samples),
        worlds: worlds_with(s.worlds, left, right, base),
        overshoot: s.overshoot,
    }
}

impl LentAnswer {
    // The answer with the numbers of the session after the update.
    fn of(state: State, told: Result<Updated, Refusal>) -> LentAnswer
        ensures { result ≡ lent_with state told }
    {
        let u = told.unwrap_or(Updated::unplayed(false));
        LentAnswer {
            refusal: told.map(|_| ()),
            state,
            frames: u.frames,
            steps: u.steps,
            request: u.request,
            left: u.left,
            right: u.right,
            words: u.words,
        }
    }
}

// Whether so many samples and slots are those of a session.
fn lengths_fit(samples: usize, left: usize, right: usize, base: usize) -> bool
    ensures { result ≡ lengths_fit samples left right base }
{
    samples == refusals::SAMPLE_ROOM
        && left == refusals::BUFFER_ROOM
        && right == refusals::BUFFER_ROOM
        && base == refusals::BUFFER_ROOM
}

// A copy of samples that are as many as a session's.
fn samples_of(lent: &[f64]) -> [f64; refusals::SAMPLE_ROOM]
    requires { length lent.now ≡ sample_room }
    ensures { result ≡ lent.now }
{
    let mut samples = [0.0; refusals::SAMPLE_ROOM];
    samples.copy_from_slice(lent);
    samples
}

// A copy of slots that are as many as a session's.
fn slots_of(lent: &[u64]) -> [u64; refusals::BUFFER_ROOM]
    requires { length lent.now ≡ buffer_room }
    ensures { result ≡ lent.now }
{
    let mut slots = [0; refusals::BUFFER_ROOM];
    slots.copy_from_slice(lent);
    slots
}

// The samples and slots of a session go into the arrays that were lent, where its update was accepted.
fn give_back(
    accepted: bool,
    s: &Session,
    samples: &mut [f64],
    left: &mut [u64],
    right: &mut [u64],
    base: &mut [u64],
)
    requires { AllFit samples.old left.old right.old base.old }
    ensures samples { samples.new ≡ array_after accepted s.now.clock.samples samples.old }
    ensures left { left.new ≡ array_after accepted s.now.worlds.left.commands.entries left.old }
    ensures right { right.new ≡ array_after accepted s.now.worlds.right.commands.entries right.old }
    ensures base { base.new ≡ array_after accepted s.now.worlds.base.entries base.old }
{
    if accepted {
        samples.copy_from_slice(&s.clock.samples);
        left.copy_from_slice(&s.worlds.left.commands.entries);
        right.copy_from_slice(&s.worlds.right.commands.entries);
        base.copy_from_slice(&s.worlds.base.entries);
    }
}

// An update over arrays that are not a session's: it is refused for its times, for its inbox, or as one of a session that is not sound. Of the inbox only the
// verdict is asked, so nothing is heard before it.
fn refuse_unfit(
    delta: f64,
    seconds: f64,
    inbox: &[u32],
    tape: &mut [u32],
) -> Result<Updated, Refusal>
    ensures { Leaves (λ s. unfit_of s delta seconds inbox.now (length tape.old)) result tape.new }
{
    let unheard = Heard {
        id: None,
        offset: None,
        other: false,
    };
    let found = inbox_scan::scan_inbox(inbox, seconds, unheard, Snapshots::none(), Timestamp(0));
    let times = in_place::times_ok(delta, seconds);
    let verdict = refusals::at_once(times, found.verdict, false);
    session_answers::refuse(verdict.err().unwrap_or(Refusal::Unsound), tape)
}

// One update of the session that numbers and lent arrays are: arrays, numbers and tape have then what it leaves. Nothing has to be asked of the arrays first:
// those of other lengths than a session's are refused as a session that is not sound. Refused, it leaves arrays and numbers as they are, and zeroes the tape.
// Its arguments are those of update, with the session in its parts.
pub fn update(
    settings: Settings,
    s: State,
    delta: f64,
    seconds: f64,
    inbox: &[u32],
    samples: &mut [f64],
    left: &mut [u64],
    right: &mut [u64],
    base: &mut [u64],
    tape: &mut [u32],
) -> LentAnswer
    ensures { UpdatesInPlace settings s delta seconds inbox.now samples.old left.old right.old base.old tape.old
        result samples.new left.new right.new base.new tape.new }
{
    if !lengths_fit(samples.len(), left.len(), right.len(), base.len()) {
        return LentAnswer::of(s, refuse_unfit(delta, seconds, inbox, tape));
    }
    let mut next = session_of(
        settings,
        s,
        samples_of(samples),
        slots_of(left),
        slots_of(right),
        slots_of(base),
    );
    let told = in_place::update(&mut next, delta, seconds, inbox, tape);
    give_back(told.is_ok(), &next, samples, left, right, base);
    LentAnswer::of(state_of(&next), told)
}
