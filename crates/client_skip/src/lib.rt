// A skip to another stamp (`reset_last_completed_timestamp` of src/client.rs of crystalorb).
#![tactic(auto)]

ghost use Rattle.std.specs.Prelude.{◌≡◌, ◌+◌, ◌*◌, ◌≤◌};
ghost use Rattle.refusals.specs.Limits.{buffer_room};
ghost use Rattle.tape.specs.Tape.{count_end};
ghost use Rattle.client.specs.Sides.{Plays};
ghost use Rattle.client_skip.specs.Skip.{reset_side, reset_along, emptied_base, skipped_of};

use client::Scene;
use tape::Tape;
use timestamp::Timestamp;

// The new world goes along with a skip where its stamp is the old one's.
pub(crate) fn reset_along(scene: &mut Scene, stamp: Timestamp, tape: &mut Tape<'_>)
    requires { tape.old.at + buffer_room ≤ count_end }
    ensures plays { Plays (reset_along scene.old stamp) tape.old scene.new tape.new }
    ensures few { tape.new.at ≤ tape.old.at + buffer_room }
{
    let old = scene.worlds.last_completed_timestamp();
    let new = scene.worlds.new_timestamp();
    if new == old {
        let side = scene.worlds.new_side();
        scene.reset_side(side, stamp, tape);
    }
}

// A skip: equal stamps move together, and the base is emptied where it goes back, so that none of its commands is played at a wrong time later.
pub fn reset_last_completed_timestamp(scene: &mut Scene, stamp: Timestamp, tape: &mut Tape<'_>)
    requires { tape.old.at + 2 * buffer_room ≤ count_end }
    ensures { Plays (skipped_of scene.old stamp) tape.old scene.new tape.new }
{
    let old = scene.worlds.last_completed_timestamp();
    let side = scene.worlds.old_side();
    reset_along(scene, stamp, tape);
    scene.reset_side(side, stamp, tape);
    if stamp.cmp(old).is_lt() {
        scene.worlds.base.drain_all();
    }
}
