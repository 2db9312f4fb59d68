// The call `issue`: a command of this client, as `Ready::issue_command` of src/client/stage/ready.rs of crystalorb takes it.
#![tactic(auto)]

ghost use Rattle.std.specs.Prelude.{◌≡◌};
ghost use Rattle.session_issue.specs.Issue.{nothing_issued, issue_with, issue_of};

use client::Ledger;
use refusals::{Refusal, Verdict};
use session_state::Session;
use timestamp::Timestamp;

// The answer of `issue`: the stamp of the command. Where it is refused document 01 has every other field 0.
#[derive(Clone, Copy)]
pub struct IssueAnswer {
    pub refusal: Verdict,
    pub session: Session,
    pub stamp: Timestamp,
    pub left: Ledger,
    pub right: Ledger,
}

// What an issue that was taken tells beside the session.
#[derive(Clone, Copy)]
pub struct Issued {
    pub stamp: Timestamp,
    pub left: Ledger,
    pub right: Ledger,
}

impl Issued {
    // What there is to tell of an issue that was refused: document 01 has 0 for each field.
    pub fn nothing() -> Issued
        ensures { result ≡ nothing_issued }
    {
        Issued {
            stamp: Timestamp(0),
            left: Ledger::empty(),
            right: Ledger::empty(),
        }
    }
}

impl IssueAnswer {
    // The answer with the session by value.
    pub fn of(session: Session, told: Result<Issued, Refusal>) -> IssueAnswer
        ensures { result ≡ issue_with session told }
    {
        let Issued { stamp, left, right } = told.unwrap_or(Issued::nothing());
        IssueAnswer {
            refusal: told.map(|_| ()),
            session,
            stamp,
            left,
            right,
        }
    }
}

// A command of this client, for the frame that is played next. Refused, it leaves the session as it is.
pub fn issue(session: &mut Session, handle: u32) -> Result<Issued, Refusal>
    ensures { issue_with session.new result ≡ issue_of session.old handle }
{
    let stamp = session.worlds.last_completed_timestamp() + 1;
    let mut scene = session.scene();
    let full = client_receive::receive_command(&mut scene, command::entry_of(stamp, handle));
    refusals::of_issue(
        handle < refusals::HANDLE_ROOM,
        session.is_sound(),
        session.stage.has_worlds(),
        full,
        session.stage.is_ready(),
    )?;
    session.worlds = scene.worlds;
    Ok(Issued {
        stamp,
        left: scene.left.closed(&scene.worlds.left.commands),
        right: scene.right.closed(&scene.worlds.right.commands),
    })
}
