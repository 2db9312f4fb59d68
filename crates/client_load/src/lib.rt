// A snapshot is loaded into the worlds: `load_snapshot` of src/client.rs of crystalorb.
#![tactic(auto)]

ghost use Rattle.std.specs.Prelude.{◌≡◌, ◌+◌, ◌<◌};
ghost use Rattle.tape.specs.Sides.{side_number};
ghost use Rattle.tape.specs.Tape.{count_end};
ghost use Rattle.client.specs.Sides.{Plays};
ghost use Rattle.client_load.specs.Load.{readied_with, loaded_of};

use client::{QueuedSnapshot, Scene};
use tape::{Side, Tape};

// A snapshot is loaded into a side, which is the new one from then on. The base is drained up to it before it is copied.
pub fn load_snapshot(scene: &mut Scene, side: Side, snapshot: QueuedSnapshot, tape: &mut Tape<'_>)
    requires { tape.old.at < count_end }
    ensures plays { Plays (loaded_of scene.old (side_number side) snapshot.stamp snapshot.handle) tape.old scene.new tape.new }
    ensures one { tape.new.at ≡ tape.old.at + 1 }
{
    let QueuedSnapshot { stamp, handle } = snapshot;
    scene.worlds.base.drain_up_to(stamp);
    scene.worlds.snapshots.queued = None;
    scene.worlds.weight = 0.0;
    scene.worlds.new = side;
    let base = &scene.worlds.base;
    // each arm calls its world's method: the prover covers no `&mut` that is one of two
    match side {
        Side::Left => {
            let world = &mut scene.worlds.left;
            let loaded = world.apply_completed_snapshot(base, stamp, handle, side, tape);
            scene.left.count_load(loaded);
        }
        Side::Right => {
            let world = &mut scene.worlds.right;
            let loaded = world.apply_completed_snapshot(base, stamp, handle, side, tape);
            scene.right.count_load(loaded);
        }
    }
}
