// The calls by value: each takes the session and returns it.
ghost use Rattle.std.specs.Prelude.{◌≡◌, length};
ghost use Rattle.session_answers.specs.Answers.{Updates};
ghost use Rattle.session_issue.specs.Issue.{issue_of};
ghost use Rattle.session_report.specs.Report.{report_of};
ghost use Rattle.session.specs.Calls.{open_of, update_of};

use super::in_place;
use client::ClientWorldSimulations;
use clocksync::Clock;
use session_answers::{OpenAnswer, UpdateAnswer};
use session_issue::IssueAnswer;
use session_report::ReportAnswer;
use session_state::Session;
use settings::Settings;
use timestamp::Timestamp;

// A session from settings. Refused, the session is that which the settings would have started, and is unsound.
#[tactic(auto, unfolding(crate::specs::Calls::open_of, crate::specs::Calls::start_of))]
pub fn open(settings: Settings) -> OpenAnswer
    ensures { result ≡ open_of settings }
{
    OpenAnswer {
        refusal: refusals::of_open(settings.passes()),
        session: Session::starting(
            settings,
            Clock::new(),
            ClientWorldSimulations::new(Timestamp(0)),
        ),
    }
}

// One update: time moves on by delta seconds to `seconds`, the inbox is read, and the words of what happens are put on the tape. These five are the call's
// arguments, as document 01 has them.
pub fn update(
    session: Session,
    delta: f64,
    seconds: f64,
    inbox: &[u32],
    tape: &mut [u32],
) -> UpdateAnswer
    ensures { Updates (update_of session delta seconds inbox.now (length tape.old)) result tape.new }
{
    let mut next = session;
    let told = in_place::update(&mut next, delta, seconds, inbox, tape);
    UpdateAnswer::of(next, told)
}

// A command of this client, for the frame that is played next.
pub fn issue(session: Session, handle: u32) -> IssueAnswer
    ensures { result ≡ issue_of session handle }
{
    let mut next = session;
    let told = in_place::issue(&mut next, handle);
    IssueAnswer::of(next, told)
}

// Where a session stands.
pub fn report(session: Session) -> ReportAnswer
    ensures { result ≡ report_of session }
{
    ReportAnswer::of(in_place::report(&session))
}
