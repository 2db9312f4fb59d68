// The two worlds of a client, their sides and ledgers, and the status of their reconciliation with the server's snapshots: what `ClientWorldSimulations` of
// src/client.rs of crystalorb holds. What happens to them is in crates of its own: client_receive, client_load, client_frame, client_publish and client_skip.
// It is done to a `Scene` in place.
#![tactic(auto)]

ghost use Rattle.std.specs.Prelude.{◌≡◌};
ghost use Rattle.client.specs.Sides.{no_snapshots, nothing_published, new_worlds_of};

pub mod ledgers;
pub mod sides;
pub mod status;

use command::CommandBuffer;
use simulation::Simulation;
use tape::Side;
use timestamp::Timestamp;

// A snapshot that waits to be loaded.
#[derive(Clone, Copy)]
pub struct QueuedSnapshot {
    pub stamp: Timestamp,
    pub handle: u32,
}

// How the catching up of a loaded snapshot fares.
#[derive(Clone, Copy)]
pub enum FastforwardingHealth {
    Healthy,
    Obsolete,
    Overshot,
}

// Where the reconciliation with the server stands; Blending has the weight of the new world.
#[derive(Clone, Copy)]
pub enum ReconciliationStatus {
    AwaitingSnapshot,
    Fastforwarding(FastforwardingHealth),
    Blending(f64),
}

// The snapshot that is queued, the stamp of the last one that was, and that of the last one received, as far as there was one.
#[derive(Clone, Copy)]
pub struct Snapshots {
    pub queued: Option<QueuedSnapshot>,
    pub lastqueued: Option<Timestamp>,
    pub lastreceived: Option<Timestamp>,
}

// The stamps of the last two published states, as far as there are any, and the time that is displayed, in frames; none until two states
// are published.
#[derive(Clone, Copy)]
pub struct Published {
    pub before: Option<Timestamp>,
    pub after: Option<Timestamp>,
    pub time: Option<f64>,
}

// Both worlds and all that reconciles them. `new` is the side of the new world.
#[derive(Clone, Copy)]
pub struct ClientWorldSimulations {
    pub left: Simulation,
    pub right: Simulation,
    pub new: Side,
    pub base: CommandBuffer,
    pub snapshots: Snapshots,
    pub weight: f64,
    pub published: Published,
}

// The ledger of one side's command buffer: what it holds, and what became of its commands.
#[derive(Clone, Copy)]
pub struct Ledger {
    pub held: usize,
    pub taken: usize,
    pub copied: usize,
    pub replaced: usize,
    pub applied: usize,
    pub leftout: usize,
}

// The worlds while an update is played: their ledgers, and the steps of the world then new.
#[derive(Clone, Copy)]
pub struct Scene {
    pub worlds: ClientWorldSimulations,
    pub left: Ledger,
    pub right: Ledger,
    pub steps: u32,
}

impl Snapshots {
    // No snapshot so far.
    pub fn none() -> Snapshots
        ensures { result ≡ no_snapshots }
    {
        Snapshots {
            queued: None,
            lastqueued: None,
            lastreceived: None,
        }
    }
}

impl Published {
    // Nothing is published yet.
    pub fn nothing() -> Published
        ensures { result ≡ nothing_published }
    {
        Published {
            before: None,
            after: None,
            time: None,
        }
    }
}

impl ClientWorldSimulations {
    // The worlds of a client whose first stamp is `stamp`. The base's stamp starts at 0.
    #[tactic(auto, unfolding(crate::specs::Sides::new_worlds_of))]
    pub fn new(stamp: Timestamp) -> ClientWorldSimulations
        ensures { result ≡ new_worlds_of stamp }
    {
        ClientWorldSimulations {
            left: Simulation::new(stamp),
            right: Simulation::new(stamp),
            new: Side::Left,
            base: CommandBuffer::new(Timestamp(0)),
            snapshots: Snapshots::none(),
            weight: 1.0,
            published: Published::nothing(),
        }
    }
}
