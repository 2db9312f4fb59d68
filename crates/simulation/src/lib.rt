// One world of the client: its commands and whether a snapshot has initialised it. It answers to src/world/simulation.rs of crystalorb.
// The world itself is the host's: what happens to it is told by the words of a tape. The stamp of the last completed frame is the
// midpoint of the command buffer, as in the Rust.
#![tactic(auto)]

ghost use Rattle.std.specs.Prelude.{◌≡◌, true, ◌+◌, ◌<◌, ◌≤◌};
ghost use Rattle.refusals.specs.Limits.{buffer_room};
ghost use Rattle.tape.specs.Sides.{side_number};
ghost use Rattle.tape.specs.Tape.{count_end};
ghost use Rattle.command.specs.Ranks.{quiet_steps_of};
ghost use Rattle.command.specs.Soundness.{known_of};
ghost use Rattle.simulation.specs.World.{step_room, new_world, scheduled_of, step_of, reset_of, load_of, Does, Loads};

use command::{CommandBuffer, Outcome};
use tape::{Side, Tape, snapshot_word, step_word};
use timestamp::Timestamp;

// One world. `init` is a flag, as in the Rust: the commands are there whether a snapshot has initialised the world or not.
#[derive(Clone, Copy)]
pub struct Simulation {
    pub commands: CommandBuffer,
    pub init: bool,
}

// What a step or a reset of a world came to: how many commands were applied to it, and how many the move of its stamp left out.
#[derive(Clone, Copy)]
pub struct Stepped {
    pub applied: usize,
    pub leftout: usize,
}

// What the load of a snapshot into a world came to: how many commands the world was given from the base, how many of its own they replaced, and how
// many of them the move to the snapshot's stamp left out.
#[derive(Clone, Copy)]
pub struct Loaded {
    pub copied: usize,
    pub replaced: usize,
    pub leftout: usize,
}

impl Simulation {
    // A world that nothing has been loaded into, with the stamp of its last completed frame.
    pub fn new(stamp: Timestamp) -> Simulation
        ensures { result ≡ new_world stamp }
    {
        Simulation {
            commands: CommandBuffer::new(stamp),
            init: false,
        }
    }

    // The stamp of its last completed frame.
    pub fn stamp(&self) -> Timestamp
        ensures { result ≡ self.now.commands.timestamp }
    {
        self.commands.timestamp
    }

    // Offers a command to the world's buffer. No call uses it today: `schedule_known` goes from command to command. It stays as a public promise.
    pub fn schedule_command(&mut self, entry: u64) -> Outcome
        ensures { record { world = self.new; outcome = result } ≡ scheduled_of self.old entry }
    {
        let mut tidy = false;
        self.schedule_known(entry, &mut tidy)
    }

    // The same, where `tidy` says whether the buffer is known to be tidy, before and after.
    #[tactic(auto, unfolding(crate::specs::World::scheduled_of))]
    pub fn schedule_known(&mut self, entry: u64, tidy: &mut bool) -> Outcome
        requires { known_of tidy.old self.old.commands ≡ true }
        ensures scheduled { record { world = self.new; outcome = result } ≡ scheduled_of self.old entry }
        ensures known { known_of tidy.new self.new.commands ≡ true }
    {
        self.commands.insert_known(entry, tidy)
    }

    // One frame: the commands up to it are applied, the world steps, and its stamp moves on. A world does not know its side, nor has it the tape.
    pub fn step(&mut self, side: Side, tape: &mut Tape<'_>) -> Stepped
        requires { tape.old.at + step_room ≤ count_end }
        ensures does { Does (step_of self.old (side_number side)) tape.old self.new result tape.new }
        ensures few { tape.new.at ≤ tape.old.at + step_room }
    {
        let mut quiet = 0;
        self.step_known(side, &mut quiet, tape)
    }

    // The same, and `quiet` is a number of next steps at which the buffer is known to stay as it is, before and after. Where it is 0 the buffer is read
    // once. At such a step nothing but the stamp changes: most are such.
    pub fn step_known(&mut self, side: Side, quiet: &mut u16, tape: &mut Tape<'_>) -> Stepped
        requires { (tape.old.at + step_room ≤ count_end) × (quiet.old ≤ quiet_steps_of self.old.commands) }
        ensures does { Does (step_of self.old (side_number side)) tape.old self.new result tape.new }
        ensures few { tape.new.at ≤ tape.old.at + step_room }
        ensures known { quiet.new ≤ quiet_steps_of self.new.commands }
    {
        let next = self.commands.timestamp + 1;
        if *quiet == 0 {
            *quiet = self.commands.quiet_steps();
        }
        if *quiet > 0 {
            *quiet -= 1;
            self.commands.timestamp = next;
            tape.put(step_word(side));
            return Stepped {
                applied: 0,
                leftout: 0,
            };
        }
        let start = tape.at;
        self.commands.apply_up_to(next, side, tape);
        let applied = tape.at - start;
        tape.put(step_word(side));
        let leftout = self.commands.update_timestamp(next);
        Stepped { applied, leftout }
    }

    // A snapshot of the frame with the stamp `stamp` is loaded: the world has the base's commands from then on.
    #[tactic(auto, unfolding(crate::specs::World::load_of))]
    pub fn apply_completed_snapshot(
        &mut self,
        base: &CommandBuffer,
        stamp: Timestamp,
        handle: u32,
        side: Side,
        tape: &mut Tape<'_>,
    ) -> Loaded
        requires { tape.old.at < count_end }
        ensures { Loads (load_of self.old base.now stamp) (side_number side) handle tape.old self.new result tape.new }
    {
        tape.put(snapshot_word(side, handle));
        let replaced = self.commands.held_count();
        self.init = true;
        self.commands = *base;
        let leftout = self.commands.update_timestamp(stamp);
        Loaded {
            copied: base.held_count(),
            replaced,
            leftout,
        }
    }

    // The world's stamp is set. Set back, the commands that remain are applied at once, so that none is played at a wrong time later.
    pub fn reset_last_completed_timestamp(
        &mut self,
        stamp: Timestamp,
        side: Side,
        tape: &mut Tape<'_>,
    ) -> Stepped
        requires { tape.old.at + buffer_room ≤ count_end }
        ensures does { Does (reset_of self.old stamp (side_number side)) tape.old self.new result tape.new }
        ensures few { tape.new.at ≤ tape.old.at + buffer_room }
    {
        let back = stamp.cmp(self.commands.timestamp).is_lt();
        let leftout = self.commands.update_timestamp(stamp);
        if !back {
            return Stepped {
                applied: 0,
                leftout,
            };
        }
        let start = tape.at;
        self.commands.apply_all(side, tape);
        Stepped {
            applied: tape.at - start,
            leftout,
        }
    }
}
