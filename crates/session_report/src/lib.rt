// The call `report`: where a session stands, as the views `SyncingInitialState` and `Ready` of src/client/stage/ of crystalorb show it.
#![tactic(auto)]

ghost use Rattle.std.specs.Prelude.{◌≡◌};
ghost use Rattle.session_report.specs.Report.{nothing_reported, report_with, report_of};

use client::ReconciliationStatus;
use refusals::{Refusal, Verdict};
use session_state::{Session, Stage};
use timestamp::Timestamp;

// The answer of `report`. Where it is refused every other field is 0, none or the first of its kind.
#[derive(Clone, Copy)]
pub struct ReportAnswer {
    pub refusal: Verdict,
    pub stage: Stage,
    pub status: ReconciliationStatus,
    pub old: Timestamp,
    pub new: Timestamp,
    pub time: Option<f64>,
}

// What a report tells.
#[derive(Clone, Copy)]
pub struct Reported {
    pub stage: Stage,
    pub status: ReconciliationStatus,
    pub old: Timestamp,
    pub new: Timestamp,
    pub time: Option<f64>,
}

impl Reported {
    // What there is to tell where a report is refused: document 01 has these.
    pub fn nothing() -> Reported
        ensures { result ≡ nothing_reported }
    {
        Reported {
            stage: Stage::SyncingClock,
            status: ReconciliationStatus::AwaitingSnapshot,
            old: Timestamp(0),
            new: Timestamp(0),
            time: None,
        }
    }
}

impl ReportAnswer {
    // The answer with its verdict.
    pub fn of(told: Result<Reported, Refusal>) -> ReportAnswer
        ensures { result ≡ report_with told }
    {
        let Reported {
            stage,
            status,
            old,
            new,
            time,
        } = told.unwrap_or(Reported::nothing());
        ReportAnswer {
            refusal: told.map(|_| ()),
            stage,
            status,
            old,
            new,
            time,
        }
    }
}

// Where a session stands.
pub fn report(session: &Session) -> Result<Reported, Refusal>
    ensures { report_with result ≡ report_of session.now }
{
    refusals::of_report(session.is_sound(), session.stage.has_worlds())?;
    let worlds = &session.worlds;
    Ok(Reported {
        stage: session.stage,
        status: worlds.infer_current_reconciliation_status(),
        old: worlds.last_completed_timestamp(),
        new: worlds.new_timestamp(),
        time: worlds.published.time,
    })
}
