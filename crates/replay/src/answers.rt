// The answers as text, without the line's end.
use super::text::{
    Bits, BufferText, LedgerText, OrNone, RefusalText, Stamp, Word, float_or_none, queued,
    stamp_or_none, write_list,
};
use client::{
    ClientWorldSimulations, FastforwardingHealth, Ledger, Published, ReconciliationStatus,
    Snapshots,
};
use clocksync::Clock;
use refusals::Refusal;
use session_answers::Updated;
use session_issue::Issued;
use session_report::{ReportAnswer, Reported};
use session_state::{Session, Stage};
use std::fmt;
use std::fmt::{Display, Formatter};
use tape::Side;

fn stage_name(stage: Stage) -> &'static str {
    match stage {
        Stage::SyncingClock => "SyncingClock",
        Stage::SyncingInitialState => "SyncingInitialState",
        Stage::Ready => "Ready",
    }
}

// A status, without its weight.
fn status_name(status: ReconciliationStatus) -> &'static str {
    match status {
        ReconciliationStatus::AwaitingSnapshot => "Awaiting",
        ReconciliationStatus::Blending(_) => "Blending",
        ReconciliationStatus::Fastforwarding(FastforwardingHealth::Healthy) => "Healthy",
        ReconciliationStatus::Fastforwarding(FastforwardingHealth::Obsolete) => "Obsolete",
        ReconciliationStatus::Fastforwarding(FastforwardingHealth::Overshot) => "Overshot",
    }
}

// The weight that a report gives: Blending's, and 0 otherwise.
fn status_weight(status: ReconciliationStatus) -> f64 {
    match status {
        ReconciliationStatus::Blending(weight) => weight,
        ReconciliationStatus::AwaitingSnapshot | ReconciliationStatus::Fastforwarding(_) => 0.0,
    }
}

// The ledgers of both sides.
#[derive(Drop)]
struct LedgersText {
    left: Ledger,
    right: Ledger,
}

impl Display for LedgersText {
    fn fmt<W: fmt::Write>(&self, f: &mut Formatter<W>) -> fmt::Result {
        write!(
            f,
            "L={} R={}",
            LedgerText(self.left),
            LedgerText(self.right)
        )
    }
}

// The answer of `update`, and the tape as it left it.
#[derive(Drop)]
pub struct UpdateText<'a> {
    pub told: Result<Updated, Refusal>,
    pub tape: &'a [u32],
}

impl Display for UpdateText<'_> {
    fn fmt<W: fmt::Write>(&self, f: &mut Formatter<W>) -> fmt::Result {
        let refusal = RefusalText(self.told.map(|_| ()));
        let answer = self.told.unwrap_or(Updated::unplayed(false));
        let frames = answer.frames;
        let steps = answer.steps;
        let request = u8::from(answer.request);
        let ledgers = LedgersText {
            left: answer.left,
            right: answer.right,
        };
        let words = answer.words;
        write!(
            f,
            "update {refusal} F={frames} C={steps} request={request} {ledgers} words={words} tape="
        )?;
        write_list(f, self.tape.iter().take(words).map(|word| Word(*word)))?;
        let is_clean = self.tape.iter().skip(words).all(|word| *word == 0);
        let rest = if is_clean { "zero" } else { "dirty" };
        write!(f, " rest={rest}")
    }
}

// The answer of `issue`.
#[derive(Drop)]
pub struct IssueText(pub Result<Issued, Refusal>);

impl Display for IssueText {
    fn fmt<W: fmt::Write>(&self, f: &mut Formatter<W>) -> fmt::Result {
        let refusal = RefusalText(self.0.map(|_| ()));
        let answer = self.0.unwrap_or(Issued::nothing());
        let stamp = Stamp(answer.stamp);
        let ledgers = LedgersText {
            left: answer.left,
            right: answer.right,
        };
        write!(f, "issue {refusal} stamp={stamp} {ledgers}")
    }
}

// The answer of `report`.
#[derive(Drop)]
pub struct ReportText(pub Result<Reported, Refusal>);

impl Display for ReportText {
    fn fmt<W: fmt::Write>(&self, f: &mut Formatter<W>) -> fmt::Result {
        let answer = ReportAnswer::of(self.0);
        let refusal = RefusalText(answer.refusal);
        let stage = stage_name(answer.stage);
        let status = status_name(answer.status);
        let weight = Bits(status_weight(answer.status));
        let old = Stamp(answer.old);
        let new = Stamp(answer.new);
        let time = float_or_none(answer.time);
        write!(
            f,
            "report {refusal} stage={stage} status={status} weight={weight} old={old} new={new} time={time}"
        )
    }
}

// The session, with its worlds where they exist.
#[derive(Drop)]
pub struct SessionText(pub Session);

impl Display for SessionText {
    fn fmt<W: fmt::Write>(&self, f: &mut Formatter<W>) -> fmt::Result {
        let session = &self.0;
        let stage = stage_name(session.stage);
        let clock = ClockText(session.clock);
        write!(f, "session stage={stage} {clock}")?;
        match session.stage {
            Stage::SyncingClock => Ok(()),
            Stage::SyncingInitialState | Stage::Ready => {
                let worlds = WorldsText {
                    worlds: session.worlds,
                    overshoot: session.overshoot,
                };
                write!(f, " {worlds}")
            }
        }
    }
}

// The clock, with its samples oldest first.
#[derive(Drop)]
struct ClockText(Clock);

impl Display for ClockText {
    fn fmt<W: fmt::Write>(&self, f: &mut Formatter<W>) -> fmt::Result {
        let clock = &self.0;
        let offset = float_or_none(clock.offset);
        let timer = Bits(clock.timer);
        let id = OrNone(clock.id);
        write!(f, "offset={offset} timer={timer} id={id} samples=")?;
        let samples = clock.samples.iter().take(clock.len).map(|x| Bits(*x));
        write_list(f, samples)
    }
}

// The worlds and all that reconciles them.
#[derive(Drop)]
struct WorldsText {
    worlds: ClientWorldSimulations,
    overshoot: f64,
}

impl Display for WorldsText {
    fn fmt<W: fmt::Write>(&self, f: &mut Formatter<W>) -> fmt::Result {
        let worlds = &self.worlds;
        let new = match worlds.new {
            Side::Left => "left",
            Side::Right => "right",
        };
        let left = BufferText(worlds.left.commands);
        let right = BufferText(worlds.right.commands);
        let left_init = u8::from(worlds.left.init);
        let right_init = u8::from(worlds.right.init);
        let base = BufferText(worlds.base);
        write!(
            f,
            "new={new} left={left} right={right} init={left_init}{right_init} base={base} "
        )?;
        let snapshots = SnapshotsText(worlds.snapshots);
        let weight = Bits(worlds.weight);
        write!(f, "{snapshots} weight={weight} ")?;
        let published = PublishedText {
            published: worlds.published,
            overshoot: self.overshoot,
        };
        let status = status_name(worlds.infer_current_reconciliation_status());
        write!(f, "{published} status={status}")
    }
}

// What is known of the snapshots.
#[derive(Drop)]
struct SnapshotsText(Snapshots);

impl Display for SnapshotsText {
    fn fmt<W: fmt::Write>(&self, f: &mut Formatter<W>) -> fmt::Result {
        let snapshots = self.0;
        let queued = queued(snapshots.queued);
        let last_queued = stamp_or_none(snapshots.lastqueued);
        let last_received = stamp_or_none(snapshots.lastreceived);
        write!(
            f,
            "queued={queued} last_queued={last_queued} last_received={last_received}"
        )
    }
}

// The last two published states, the overshoot and the time that is displayed.
#[derive(Drop)]
struct PublishedText {
    published: Published,
    overshoot: f64,
}

impl Display for PublishedText {
    fn fmt<W: fmt::Write>(&self, f: &mut Formatter<W>) -> fmt::Result {
        let published = self.published;
        let before = stamp_or_none(published.before);
        let after = stamp_or_none(published.after);
        let overshoot = Bits(self.overshoot);
        let time = float_or_none(published.time);
        write!(
            f,
            "before={before} after={after} overshoot={overshoot} time={time}"
        )
    }
}

// The answer buffer of `mean`, of `length` bytes, or `-` for none. Past the bytes that there are it is 0: so long an answer is refused.
#[derive(Drop)]
pub struct MeanText<'a> {
    pub answer: &'a [u8],
    pub length: u64,
}

impl Display for MeanText<'_> {
    fn fmt<W: fmt::Write>(&self, f: &mut Formatter<W>) -> fmt::Result {
        if self.length == 0 {
            return write!(f, "-");
        }
        for byte in self.answer {
            write!(f, "{byte:02x}")?;
        }
        for _ in self.answer.len() as u64..self.length {
            write!(f, "00")?;
        }
        Ok(())
    }
}
