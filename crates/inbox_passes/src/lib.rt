// The second reading of an inbox, where it has a command: its commands are received. What its clock messages and its snapshots leave is found in the first
// reading, by inbox_scan.
#![tactic(auto)]

ghost use Rattle.std.specs.Prelude.{◌≡◌};
ghost use Rattle.client_receive.specs.Inner.{Known};
ghost use Rattle.inbox_passes.specs.Passes.{receive_one, received_in};

use client::Scene;
use client_receive::Tidy;
use inbox::{Message, Reader, Reading};

// The commands of an inbox, in their order. Gives whether a buffer that takes one of them was full, or one was before (`full`).
// `full` is what an earlier inbox left, as `received_in` goes on from any state. Its one caller, the session, hands in false.
pub fn receive_commands(words: &[u32], scene: &mut Scene, full: bool) -> bool
    ensures { record { scene = scene.new; full = result } ≡ received_in words.now (record { scene = scene.old; full = full }) }
{
    let mut filled = full;
    let mut tidy = Tidy::unknown();
    for message in Reader::new(words) {
        filled = receive_one(scene, filled, &mut tidy, message);
    }
    filled
}

// A command is received; any other message is passed over. Once a buffer was full it stays said. What is known of the buffers goes from command to command.
fn receive_one(scene: &mut Scene, full: bool, tidy: &mut Tidy, message: Reading) -> bool
    requires { Known tidy.old scene.old.worlds }
    ensures received { record { scene = scene.new; full = result } ≡ receive_one (record { scene = scene.old; full = full }) message }
    ensures known { Known tidy.new scene.new.worlds }
{
    let Ok(Message::Command { stamp, handle }) = message else {
        return full;
    };
    let filled = client_receive::receive_command_known(
        scene,
        command::entry_of(stamp, handle),
        tidy,
    );
    full || filled
}
