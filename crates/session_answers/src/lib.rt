// The records of what open and update answer, and each way to fill that of update. It answers to `Client::update` of src/client.rs of crystalorb.
#![tactic(auto)]

ghost use Rattle.std.specs.Prelude.{◌≡◌, length, replicate};
ghost use Rattle.refusals.specs.Refusals.{accepted};
ghost use Rattle.session_answers.specs.Answers.{nothing_played, unplayed_of, refused_with, answer_with, Leaves, Updates};
ghost use Rattle.session_answers.specs.Inner.{accepted_by};

use client::{Ledger, Scene};
use clocksync::Clock;
use fixed_timestepper::{Advanced, TimeKeeper};
use refusals::{Refusal, Verdict};
use session_state::Session;

// The answer of `open`.
#[derive(Clone, Copy)]
pub struct OpenAnswer {
    pub refusal: Verdict,
    pub session: Session,
}

// The answer of `update`: frames are F, steps are C, words are those played, and a request goes out or not. Where it is refused document 01 has every
// other field 0 or no.
#[derive(Clone, Copy)]
pub struct UpdateAnswer {
    pub refusal: Verdict,
    pub session: Session,
    pub frames: u32,
    pub steps: u32,
    pub request: bool,
    pub left: Ledger,
    pub right: Ledger,
    pub words: usize,
}

// What an update that was accepted tells beside the session. The request is a flag: the rest is there either way.
#[derive(Clone, Copy)]
pub struct Updated {
    pub frames: u32,
    pub steps: u32,
    pub request: bool,
    pub left: Ledger,
    pub right: Ledger,
    pub words: usize,
}

impl Updated {
    // What there is to tell of an update that played nothing. Of a refused one document 01 has this too, with no request.
    pub fn unplayed(request: bool) -> Updated
        ensures { result ≡ nothing_played request }
    {
        Updated {
            frames: 0,
            steps: 0,
            request,
            left: Ledger::empty(),
            right: Ledger::empty(),
            words: 0,
        }
    }
}

impl UpdateAnswer {
    // The answer with the session by value.
    pub fn of(session: Session, told: Result<Updated, Refusal>) -> UpdateAnswer
        ensures { result ≡ answer_with session told }
    {
        let Updated {
            frames,
            steps,
            request,
            left,
            right,
            words,
        } = told.unwrap_or(Updated::unplayed(false));
        UpdateAnswer {
            refusal: told.map(|_| ()),
            session,
            frames,
            steps,
            request,
            left,
            right,
            words,
        }
    }
}

// Zeroes a tape.
#[tactic(auto, using(tape::proofs::Writing::cleared_all))]
fn zero(tape: &mut [u32])
    ensures { tape.new ≡ replicate (length tape.old) 0 }
{
    tape::clear(tape, 0);
}

// An update that played nothing: the tape is zeroed.
pub fn unplayed(request: bool, tape: &mut [u32]) -> Updated
    ensures { Leaves (λ s. unplayed_of accepted s request (length tape.old)) (Ok result) tape.new }
{
    zero(tape);
    Updated::unplayed(request)
}

// A refused update: the tape is zeroed. The session is left as it is.
#[tactic(auto, unfolding(crate::specs::Answers::refused_with))]
pub fn refuse(refusal: Refusal, tape: &mut [u32]) -> Result<Updated, Refusal>
    ensures { Leaves (λ s. refused_with refusal s (length tape.old)) result tape.new }
{
    zero(tape);
    Err(refusal)
}

// An update that nothing refuses: the session that its scene leaves, with this clock and the end of the worlds, and zeros on the rest of the tape.
// No call uses it today: the clock moves on in the session, and `accept_scene` leaves it. It stays as a public promise.
#[tactic(auto, unfolding(crate::specs::Inner::accepted_by))]
pub fn accept(
    session: &mut Session,
    clock: Clock,
    request: bool,
    scene: &Scene,
    a: Advanced,
    tape: &mut [u32],
) -> Updated
    ensures { Updates (accepted_by session.old clock request scene.now a tape.old) (answer_with session.new (Ok result)) tape.new }
{
    session.clock = clock;
    accept_scene(session, request, scene, a, tape)
}

// The same where the session has its clock already.
#[tactic(auto, unfolding(crate::specs::Inner::accepted_by))]
pub fn accept_scene(
    session: &mut Session,
    request: bool,
    scene: &Scene,
    a: Advanced,
    tape: &mut [u32],
) -> Updated
    ensures { Updates (accepted_by session.old session.old.clock request scene.now a tape.old) (answer_with session.new (Ok result)) tape.new }
{
    tape::clear(tape, a.at);
    session.worlds = scene.worlds;
    let keeper = TimeKeeper {
        settings: session.settings,
        overshoot: a.overshoot,
    };
    keeper.ended(&mut session.worlds);
    session.stage = session_stage::stage_after(session.stage, session.worlds.published.time);
    session.overshoot = a.overshoot;
    Updated {
        frames: a.frames,
        steps: scene.steps,
        request,
        left: scene.left.closed(&session.worlds.left.commands),
        right: scene.right.closed(&session.worlds.right.commands),
        words: a.at,
    }
}
