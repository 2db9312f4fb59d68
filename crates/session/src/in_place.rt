// The calls in place: update here, and issue and report, which have crates of their own. Each hands what its tests found to `refusals`, which knows
// their order. A refused call leaves the session as it is. The inner functions of update take its arguments, each as far as it needs them.
ghost use Rattle.std.specs.Prelude.{◌≡◌, ◌≤◌, length, unwrap_or};
ghost use Rattle.refusals.specs.Limits.{most_steps};
ghost use Rattle.clocksync.specs.Clock.{listen_of, server_seconds_of};
ghost use Rattle.client.specs.Sides.{old_stamp_of};
ghost use Rattle.client_receive.specs.Receive.{none_received};
ghost use Rattle.inbox_passes.specs.Passes.{received_in};
ghost use Rattle.inbox_scan.specs.Scan.{has_command, kept_in, Scans};
ghost use Rattle.session_answers.specs.Answers.{answer_with, Updates};
ghost use Rattle.session.specs.Inner.{arrived_in, clock_moved_by, end_verdict_of, Scanned, decided};
ghost use Rattle.session.specs.Calls.{times_ok, worlds_update_of, update_of};

use client::{Ledger, Scene};
use fixed_timestepper::{Advanced, TimeKeeper};
use inbox_scan::Scan;
use refusals::{Refusal, Verdict};
use session_answers::Updated;
pub use session_issue::issue;
pub use session_report::report;
use session_state::Session;

// Whether delta and seconds are in their ranges; false for a NaN.
pub fn times_ok(delta: f64, seconds: f64) -> bool
    ensures { result ≡ times_ok delta seconds }
{
    timestamp::within(-refusals::HOUR, refusals::HOUR, delta)
        && timestamp::within(-refusals::LONGEST_TIME, refusals::LONGEST_TIME, seconds)
}

// What an inbox holds for a session. Its commands are received by a second reading, where there is one.
fn scan(session: &Session, seconds: f64, inbox: &[u32]) -> Scan
    ensures { Scans inbox.now seconds (listen_of session.now.clock) session.now.worlds.snapshots (old_stamp_of session.now.worlds) result }
{
    let old = session.worlds.last_completed_timestamp();
    inbox_scan::scan_inbox(
        inbox,
        seconds,
        session.clock.listen(),
        session.worlds.snapshots,
        old,
    )
}

// An update while the clock syncs, unless it is refused.
fn update_clock(
    session: &mut Session,
    delta: f64,
    seconds: f64,
    scan: Scan,
    tape: &mut [u32],
) -> Result<Updated, Refusal>
    ensures { decided (clock_moved_by session.old delta seconds scan.worldly scan.heard (length tape.old)) session.old (length tape.old)
        result session.new tape.new }
{
    refusals::while_syncing(scan.worldly, scan.heard.other)?;
    let t = session.clock.tick(session.settings, delta);
    session_stage::synced(
        session,
        t.clock.settle(session.settings, scan.heard),
        seconds,
    );
    Ok(session_answers::unplayed(t.request, tape))
}

// The commands of an inbox are received, which are looked for only where there is any, and after them the snapshots that were found. Gives whether a buffer
// that takes a command was full.
fn receive(scan: Scan, inbox: &[u32], scene: &mut Scene) -> bool
    requires { (scan.commands ≡ has_command inbox.now) × (scan.snapshots ≡ kept_in (old_stamp_of scene.old.worlds) inbox.now scene.old.worlds.snapshots) }
    ensures { record { scene = scene.new; full = result } ≡ arrived_in inbox.now (none_received scene.old) }
{
    let full = scan.commands && inbox_passes::receive_commands(inbox, scene, false);
    scene.worlds.snapshots = scan.snapshots;
    full
}

// The server's time at a time of this client, by an offset; the client's own time where there is none.
fn server_time(offset: Option<f64>, seconds: f64) -> f64
    ensures { result ≡ unwrap_or (server_seconds_of offset seconds) seconds }
{
    offset.map_or(seconds, |x| seconds + x)
}

// The verdict on an update whose frames have ended; the tape has room for `room` words.
fn verdict_at_end(keeper: TimeKeeper, a: Advanced, room: usize) -> Verdict
    ensures { result ≡ end_verdict_of keeper.settings a room }
{
    let weight = keeper.after(a).tween_weight();
    refusals::at_end(
        a.stop,
        client_publish::ending::is_weight(weight),
        a.at <= room,
    )
}

// An update once worlds exist, unless it is refused. The frames are played on a copy of the worlds, which an accepted update leaves in the session; it is
// made field by field, since `Session::scene` copies the worlds twice. The clock moves on where nothing refuses any more: until then its offset is enough.
fn update_worlds(
    session: &mut Session,
    delta: f64,
    seconds: f64,
    inbox: &[u32],
    scan: Scan,
    tape: &mut [u32],
) -> Result<Updated, Refusal>
    requires { (session.old.settings.m ≤ most_steps) × (Scanned session.old seconds inbox.now scan) }
    ensures { decided (worlds_update_of session.old delta seconds inbox.now (length tape.old)) session.old (length tape.old) result session.new tape.new }
{
    let settings = session.settings;
    let mut scene = Scene {
        worlds: session.worlds,
        left: Ledger::empty(),
        right: Ledger::empty(),
        steps: 0,
    };
    let full = receive(scan, inbox, &mut scene);
    refusals::by_arrivals(scan.heard.other, full)?;
    let offset = session.clock.offset_after(settings, scan.heard);
    let server = server_time(offset, seconds) + settings.lag;
    let keeper = TimeKeeper {
        settings,
        overshoot: session.overshoot,
    };
    let a = keeper.update(&mut scene, delta, server, tape);
    verdict_at_end(keeper, a, tape.len())?;
    let request = session.clock.move_timer(settings, delta);
    session.clock.take(settings, scan.heard, offset);
    let told = session_answers::accept_scene(session, request, &scene, a, tape);
    Ok(told)
}

// An update, unless it is refused. While the clock syncs there are no worlds.
fn decide(
    session: &mut Session,
    delta: f64,
    seconds: f64,
    inbox: &[u32],
    tape: &mut [u32],
) -> Result<Updated, Refusal>
    ensures { decided (update_of session.old delta seconds inbox.now (length tape.old)) session.old (length tape.old) result session.new tape.new }
{
    let found = scan(session, seconds, inbox);
    refusals::at_once(times_ok(delta, seconds), found.verdict, session.is_sound())?;
    if session.stage.has_worlds() {
        return update_worlds(session, delta, seconds, inbox, found, tape);
    }
    update_clock(session, delta, seconds, found, tape)
}

// One update: time moves on by delta seconds to `seconds`, the inbox is read, and the words of what happens are put on the tape. A refused one zeroes it.
// These five are the call's arguments, as document 01 has them.
pub fn update(
    session: &mut Session,
    delta: f64,
    seconds: f64,
    inbox: &[u32],
    tape: &mut [u32],
) -> Result<Updated, Refusal>
    ensures { Updates (update_of session.old delta seconds inbox.now (length tape.old)) (answer_with session.new result) tape.new }
{
    match decide(session, delta, seconds, inbox, tape) {
        Ok(told) => Ok(told),
        Err(refusal) => session_answers::refuse(refusal, tape),
    }
}
