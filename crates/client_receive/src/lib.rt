// Commands and snapshots that arrive: `receive_command` and what `receive_snapshot` decides, of src/client.rs of crystalorb.
#![tactic(auto)]

ghost use Rattle.std.specs.Prelude.{◌≡◌};
ghost use Rattle.client.specs.Ledgers.{takes};
ghost use Rattle.client_receive.specs.Inner.{any_full, none_known, Known};
ghost use Rattle.client_receive.specs.Receive.{received_of, fresh_of, noted_of, snapshots_of};

use client::{QueuedSnapshot, Scene, Snapshots, status};
use command::Outcome;
use timestamp::Timestamp;

// Whether one of three insertions found its buffer full.
#[tactic(auto, unfolding(crate::specs::Inner::any_full))]
pub(crate) fn any_full(base: Outcome, left: Outcome, right: Outcome) -> bool
    ensures { result ≡ any_full base left right }
{
    base.is_full() || left.is_full() || right.is_full()
}

// Of which of the three buffers that take a command it is known that they are tidy. Flags: each says what is known of its own.
#[derive(Clone, Copy)]
pub struct Tidy {
    pub base: bool,
    pub left: bool,
    pub right: bool,
}

impl Tidy {
    // Of none it is known.
    pub fn unknown() -> Tidy
        ensures { result ≡ none_known }
    {
        Tidy {
            base: false,
            left: false,
            right: false,
        }
    }
}

// A command goes to the base, the old and the new world. Gives whether one of them takes it but has no room: refusal 23.
pub fn receive_command(scene: &mut Scene, entry: u64) -> bool
    ensures { record { scene = scene.new; full = result } ≡ received_of scene.old entry }
{
    let mut tidy = Tidy::unknown();
    receive_command_known(scene, entry, &mut tidy)
}

// The same, where `tidy` says which buffers are known to be tidy, before and after. None of the three looks at another, so left and right need not be told
// apart.
pub fn receive_command_known(scene: &mut Scene, entry: u64, tidy: &mut Tidy) -> bool
    requires { Known tidy.old scene.old.worlds }
    ensures received { record { scene = scene.new; full = result } ≡ received_of scene.old entry }
    ensures known { Known tidy.new scene.new.worlds }
{
    let base = scene.worlds.base.insert_known(entry, &mut tidy.base);
    let left = scene.worlds.left.schedule_known(entry, &mut tidy.left);
    let right = scene.worlds.right.schedule_known(entry, &mut tidy.right);
    scene.left.count_taken(left.taken());
    scene.right.count_taken(right.taken());
    any_full(base, left, right)
}

// Whether a snapshot is later than the last one queued, where there was one.
#[tactic(auto, unfolding(crate::specs::Receive::fresh_of))]
pub(crate) fn is_fresh(last: Option<Timestamp>, stamp: Timestamp) -> bool
    ensures { result ≡ fresh_of last stamp }
{
    last.is_none_or(|l| status::is_later(stamp, l))
}

// The last queued stamp is the queued snapshot's, where there is one.
#[tactic(auto, unfolding(crate::specs::Receive::noted_of))]
pub(crate) fn noted(queued: Option<QueuedSnapshot>, last: Option<Timestamp>) -> Option<Timestamp>
    ensures { result ≡ noted_of queued last }
{
    queued.map(|q| q.stamp).or(last)
}

// What becomes of the snapshots where one arrives at a client of the stamp `old`.
#[tactic(auto, unfolding(crate::specs::Receive::snapshots_of, crate::specs::Receive::snapshots_by, crate::specs::Receive::from_future_of))]
pub fn snapshots_with(s: Snapshots, old: Timestamp, snapshot: QueuedSnapshot) -> Snapshots
    ensures { result ≡ snapshots_of s old snapshot.stamp snapshot.handle }
{
    let stamp = snapshot.stamp;
    // it is from the future
    if status::is_later(stamp, old) {
        return Snapshots {
            lastreceived: Some(stamp),
            ..s
        };
    }
    if is_fresh(s.lastqueued, stamp) {
        return Snapshots {
            queued: Some(snapshot),
            lastqueued: Some(stamp),
            lastreceived: Some(stamp),
        };
    }
    Snapshots {
        lastqueued: noted(s.queued, s.lastqueued),
        lastreceived: Some(stamp),
        ..s
    }
}
