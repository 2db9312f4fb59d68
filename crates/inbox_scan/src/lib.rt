// The messages of an inbox, read once: its verdict, whether it has commands or snapshots, what its clock messages tell, and the
// snapshots that it leaves. Commands are only found here: where there is one, inbox_passes reads the inbox a second time and receives them.
#![tactic(auto)]

ghost use Rattle.std.specs.Prelude.{◌≡◌};
ghost use Rattle.inbox_scan.specs.Scan.{Scans, ScansAll};
ghost use Rattle.inbox_scan.specs.Inner.{nothing_found, scan_one};

use client::{QueuedSnapshot, Snapshots};
use clocksync::Heard;
use inbox::{Message, Reader, Reading};
use refusals::{Refusal, Verdict};
use timestamp::Timestamp;

// What an inbox holds. Of one over 4,096 words nothing is read. The two flags tell of it beside the rest, which is there either way.
#[derive(Clone, Copy)]
pub struct Scan {
    pub verdict: Verdict,
    // whether there is a command or a snapshot
    pub worldly: bool,
    // whether there is a command
    pub commands: bool,
    pub heard: Heard,
    pub snapshots: Snapshots,
}

impl Scan {
    // Before the first message: this was known before it.
    fn start(heard: Heard, snapshots: Snapshots) -> Scan
        ensures { result ≡ nothing_found heard snapshots }
    {
        Scan {
            verdict: Ok(()),
            worldly: false,
            commands: false,
            heard,
            snapshots,
        }
    }
}

// What the messages of an inbox of any length tell a client of the stamp `old` at its time `seconds`, which heard this and has these snapshots: each is of
// another part of the session or of the call, and is named.
pub fn scan_messages(
    words: &[u32],
    seconds: f64,
    heard: Heard,
    snapshots: Snapshots,
    old: Timestamp,
) -> Scan
    ensures { ScansAll words.now seconds heard snapshots old result }
{
    let start = Scan::start(heard, snapshots);
    Reader::new(words).fold(start, |found, message| take(found, message, seconds, old))
}

// What an inbox holds. Over 4,096 words are not read.
pub fn scan_inbox(
    words: &[u32],
    seconds: f64,
    heard: Heard,
    snapshots: Snapshots,
    old: Timestamp,
) -> Scan
    ensures { Scans words.now seconds heard snapshots old result }
{
    if refusals::MOST_WORDS < words.len() {
        return Scan {
            verdict: Err(Refusal::Length),
            ..Scan::start(heard, snapshots)
        };
    }
    scan_messages(words, seconds, heard, snapshots, old)
}

// One message is taken. Fields are assigned, since a struct that takes the others from `found` was slower: 20 and not 14 µs for 4,096 words.
fn take(mut found: Scan, message: Reading, seconds: f64, old: Timestamp) -> Scan
    ensures { result ≡ scan_one seconds old found message }
{
    match message {
        Ok(Message::Command { .. }) => {
            found.worldly = true;
            found.commands = true;
        }
        Ok(Message::Snapshot { stamp, handle }) => {
            found.worldly = true;
            let snapshot = QueuedSnapshot { stamp, handle };
            found.snapshots = client_receive::snapshots_with(found.snapshots, old, snapshot);
        }
        Ok(Message::Clock { id, send, server }) => {
            found.heard = found.heard.hear(id, send, server, seconds);
        }
        Err(refusal) => {
            found.verdict = inbox_refusal::lowest(found.verdict, Err(refusal));
        }
    }
    found
}
