// The two sides: which world is old and which is new, and a ledger for each. (src/old_new.rs of crystalorb.)
ghost use Rattle.std.specs.Prelude.{◌≡◌, ◌+◌, ◌<◌, ◌≤◌};
ghost use Rattle.refusals.specs.Limits.{buffer_room};
ghost use Rattle.tape.specs.Sides.{side_number};
ghost use Rattle.tape.specs.Tape.{count_end};
ghost use Rattle.command.specs.Ranks.{quiet_steps_of};
ghost use Rattle.client.specs.Sides.{new_side_of, old_side_of, world_of, world_stamp_of, old_stamp_of, new_stamp_of, done_at, Plays};
ghost use Rattle.simulation.specs.World.{step_room, step_of, reset_of};

use super::{ClientWorldSimulations, Scene};
use simulation::Simulation;
use tape::{Side, Tape};
use timestamp::Timestamp;

impl ClientWorldSimulations {
    // The side of the new world.
    #[tactic(auto, unfolding(crate::specs::Sides::new_side_of))]
    pub fn new_side(&self) -> Side
        ensures { side_number result ≡ new_side_of self.now }
    {
        self.new
    }

    // The side of the old world.
    #[tactic(auto, unfolding(crate::specs::Sides::old_side_of))]
    pub fn old_side(&self) -> Side
        ensures { side_number result ≡ old_side_of self.now }
    {
        self.new.other()
    }

    // The world of a side.
    #[tactic(auto, unfolding(crate::specs::Sides::world_of))]
    pub fn get_side(&self, side: Side) -> &Simulation
        ensures { result.now ≡ world_of self.now (side_number side) }
    {
        match side {
            Side::Left => &self.left,
            Side::Right => &self.right,
        }
    }

    // The stamp of the old world, which is the client's.
    #[tactic(auto, unfolding(crate::specs::Sides::old_stamp_of))]
    pub fn last_completed_timestamp(&self) -> Timestamp
        ensures { result ≡ old_stamp_of self.now }
    {
        self.get_side(self.old_side()).stamp()
    }

    // The stamp of the new world.
    #[tactic(auto, unfolding(crate::specs::Sides::new_stamp_of))]
    pub fn new_timestamp(&self) -> Timestamp
        ensures { result ≡ new_stamp_of self.now }
    {
        self.get_side(self.new_side()).stamp()
    }
}

impl Scene {
    // The world of a side steps.
    pub fn step_side(&mut self, side: Side, tape: &mut Tape<'_>)
        requires { tape.old.at + step_room ≤ count_end }
        ensures plays { Plays (done_at self.old (side_number side) (step_of (world_of self.old.worlds (side_number side)) (side_number side)))
            tape.old self.new tape.new }
        ensures few { tape.new.at ≤ tape.old.at + step_room }
    {
        let mut quiet = 0;
        self.step_side_known(side, &mut quiet, tape);
    }

    // The same, where `quiet` next steps of that world are known to leave its buffer as it is. A world does not know its side, and the tape is not the
    // scene's, so all are named. Here and below each arm calls its world's method: the prover covers no `&mut` that is one of two.
    #[tactic(auto, unfolding(crate::specs::Sides::world_of))]
    pub fn step_side_known(&mut self, side: Side, quiet: &mut u16, tape: &mut Tape<'_>)
        requires { (tape.old.at + step_room ≤ count_end) × (quiet.old ≤ quiet_steps_of (world_of self.old.worlds (side_number side)).commands) }
        ensures plays { Plays (done_at self.old (side_number side) (step_of (world_of self.old.worlds (side_number side)) (side_number side)))
            tape.old self.new tape.new }
        ensures few { tape.new.at ≤ tape.old.at + step_room }
        ensures known { quiet.new ≤ quiet_steps_of (world_of self.new.worlds (side_number side)).commands }
    {
        match side {
            Side::Left => {
                let done = self.worlds.left.step_known(side, quiet, tape);
                self.left.count(done);
            }
            Side::Right => {
                let done = self.worlds.right.step_known(side, quiet, tape);
                self.right.count(done);
            }
        }
    }

    // The world of a side is set to a stamp.
    pub fn reset_side(&mut self, side: Side, stamp: Timestamp, tape: &mut Tape<'_>)
        requires { tape.old.at + buffer_room ≤ count_end }
        ensures plays { Plays (done_at self.old (side_number side) (reset_of (world_of self.old.worlds (side_number side)) stamp (side_number side)))
            tape.old self.new tape.new }
        ensures few { tape.new.at ≤ tape.old.at + buffer_room }
    {
        match side {
            Side::Left => {
                let world = &mut self.worlds.left;
                let done = world.reset_last_completed_timestamp(stamp, side, tape);
                self.left.count(done);
            }
            Side::Right => {
                let world = &mut self.worlds.right;
                let done = world.reset_last_completed_timestamp(stamp, side, tape);
                self.right.count(done);
            }
        }
    }
}
