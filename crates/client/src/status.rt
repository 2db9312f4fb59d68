// Where the reconciliation stands, judged from the worlds' stamps, the weight and the queued snapshot.
ghost use Rattle.std.specs.Prelude.{◌≡◌};
ghost use Rattle.client.specs.Status.{later_of, newer_of, status_of};

use super::{ClientWorldSimulations, FastforwardingHealth, QueuedSnapshot, ReconciliationStatus};
use timestamp::Timestamp;

// Whether the first stamp is later than the second.
#[tactic(auto, unfolding(crate::specs::Status::later_of))]
pub fn is_later(a: Timestamp, b: Timestamp) -> bool
    ensures { result ≡ later_of a b }
{
    a.cmp(b).is_gt()
}

// Whether a queued snapshot is later than the new world.
#[tactic(auto, unfolding(crate::specs::Status::newer_of))]
pub fn is_snapshot_newer(queued: Option<QueuedSnapshot>, new: Timestamp) -> bool
    ensures { result ≡ newer_of queued new }
{
    queued.is_some_and(|q| is_later(q.stamp, new))
}

impl ClientWorldSimulations {
    // The status: equal stamps blend or await by the weight; else the new world is ahead, or behind a newer snapshot, or catching up.
    #[tactic(auto, unfolding(crate::specs::Status::status_of, crate::specs::Status::overshot_of))]
    pub fn infer_current_reconciliation_status(&self) -> ReconciliationStatus
        ensures { result ≡ status_of self.now }
    {
        let old = self.last_completed_timestamp();
        let new = self.new_timestamp();
        if new == old {
            let t = self.weight;
            if t < 1.0 {
                return ReconciliationStatus::Blending(t);
            }
            return ReconciliationStatus::AwaitingSnapshot;
        }
        if is_later(new, old) {
            return ReconciliationStatus::Fastforwarding(FastforwardingHealth::Overshot);
        }
        if is_snapshot_newer(self.snapshots.queued, new) {
            return ReconciliationStatus::Fastforwarding(FastforwardingHealth::Obsolete);
        }
        ReconciliationStatus::Fastforwarding(FastforwardingHealth::Healthy)
    }
}
