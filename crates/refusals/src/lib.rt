// Why calls are turned down, under which numbers, the order in which each call is judged, and the limits. A call hands in what its tests found
// and gets its verdict. It answers to no file of crystalorb, which has no such numbers.
#![tactic(auto)]

ghost use Rattle.std.specs.Prelude.{◌≡◌};
ghost use Rattle.refusals.specs.Refusals.{number_of, number_in, required, open_verdict_by, once_verdict_by, syncing_verdict_by};
ghost use Rattle.refusals.specs.Refusals.{arrival_verdict_by, end_verdict_by, issue_verdict_by, report_verdict_by};

// Why a call is turned down. The cases stand in the order of their numbers, which is the order derived.
#[derive(Clone, Copy, PartialEq, Eq, PartialOrd, Ord)]
pub enum Refusal {
    // Settings that are out of their ranges.
    Settings = 1,
    // Delta or seconds that are out of their ranges.
    Times = 2,
    // An inbox of over 4,096 words.
    Length = 3,
    // A word of wrong kind, place or spare bits.
    Word = 4,
    // An inbox that ends inside a message.
    Cut = 5,
    // A clock time that is not finite or beyond 2^32.
    ClockTime = 6,
    // The handle of an issue over 24 bits.
    Handle = 7,
    // Sample bytes, a sample or the answer buffer of the hosts' mean call.
    Samples = 8,
    // An unsound session.
    Unsound = 20,
    // A command or a snapshot, or a report, while the clock syncs.
    Syncing = 21,
    // Another client id.
    OtherClient = 22,
    // A command for a buffer that takes it but holds 64.
    Full = 23,
    // An issue before the session is Ready.
    NotReady = 24,
    // A 66th frame in one update.
    Frames = 25,
    // Worlds in a state in which the Rust stops.
    Status = 26,
    // A tween weight outside 0 to 1.
    Weight = 27,
    // Words that exceed the tape.
    Tape = 28,
    // A span or a part of a frame rate that is out of its range.
    Span = 31,
}

// What a call is judged to be: accepted, or turned down.
pub type Verdict = Result<(), Refusal>;

// The number under which hosts are told of it.
impl From<Refusal> for u32 {
    ghost from_gives = { λ refusal n. n ≡ number_of refusal };

    fn from(refusal: Refusal) -> u32 {
        refusal as u32
    }
}

// The number of a verdict: 0 where nothing refuses. A function: a verdict is the library's Result, for which no crate of ours can write a `From`.
pub fn number(verdict: Verdict) -> u32
    ensures { result ≡ number_in verdict }
{
    match verdict {
        Ok(()) => 0,
        Err(refusal) => u32::from(refusal),
    }
}

// A fact that must hold, or the call is turned down.
pub fn require(fact: bool, refusal: Refusal) -> Verdict
    ensures { result ≡ required fact refusal }
{
    if fact { Ok(()) } else { Err(refusal) }
}

// An inbox has at most so many words.
pub const MOST_WORDS: usize = 4096;
// A handle is below this: it has 24 bits.
pub const HANDLE_ROOM: u32 = 16777216;
// A buffer holds at most so many commands.
pub const BUFFER_ROOM: usize = 64;
// An update plays at most so many frames.
pub const MOST_FRAMES: u32 = 65;
// The most catch-up steps of a frame that settings may ask for.
pub const MOST_STEPS: u32 = 64;
// The samples that a mean needs are at most so many.
pub const MOST_NEEDED: u32 = 32;
// A clock has so many slots for samples: as many as settings that pass have it store.
pub const SAMPLE_ROOM: usize = 64;
// Between calls it holds at most so many: with one more their mean is taken.
pub const MOST_SAMPLES: usize = 63;
// The lag is at most so many frames.
pub const MOST_LAG_FRAMES: i16 = 16383;
// A span whose frames are asked for has at most so many microseconds: 2^40.
pub const LONGEST_SPAN: u64 = 1099511627776;
// Each of the two parts of a frame rate is at most this.
pub const MOST_RATE_PART: u32 = 65535;

// The shortest timestep and the shortest blend latency, in seconds: 1/1024.
pub const SHORTEST_TIMESTEP: f64 = 0.0009765625;
// The longest timestep, in seconds.
pub const LONGEST_TIMESTEP: f64 = 1.0;
// The longest latency, in seconds.
pub const LONGEST_LATENCY: f64 = 60.0;
// The seconds of an hour: the limit of a delta, of the request timer and of thresholds.
pub const HOUR: f64 = 3600.0;
// Times are within 2^32 seconds on both sides of 0.
pub const LONGEST_TIME: f64 = 4294967296.0;
// Clock samples are within 2^33 seconds on both sides of 0.
pub const LARGEST_SAMPLE: f64 = 8589934592.0;

// Why the frames of an update ended: all were played, a 66th was due, or the Rust stops in one. It is no `Verdict`, which could name any refusal, and a
// Result of an enum of the two would need the arms of `at_end` too.
#[derive(Clone, Copy)]
pub enum Stop {
    Done,
    TooManyFrames,
    StatusStops,
}

// The verdict on an open, by whether its settings pass.
pub fn of_open(passes: bool) -> Verdict
    ensures { result ≡ open_verdict_by passes }
{
    require(passes, Refusal::Settings)
}

// The verdict on an update before anything of it is played.
#[tactic(auto, unfolding(crate::specs::Refusals::once_verdict_by))]
pub fn at_once(times: bool, inbox: Verdict, sound: bool) -> Verdict
    ensures { result ≡ once_verdict_by times inbox sound }
{
    require(times, Refusal::Times)?;
    inbox?;
    require(sound, Refusal::Unsound)
}

// The verdict by what arrived while the clock syncs.
pub fn while_syncing(arrived: bool, other: bool) -> Verdict
    ensures { result ≡ syncing_verdict_by arrived other }
{
    require(!arrived, Refusal::Syncing)?;
    require(!other, Refusal::OtherClient)
}

// The verdict by what arrived once worlds exist.
pub fn by_arrivals(other: bool, full: bool) -> Verdict
    ensures { result ≡ arrival_verdict_by other full }
{
    require(!other, Refusal::OtherClient)?;
    require(!full, Refusal::Full)
}

// The verdict on an update whose frames have ended.
pub fn at_end(stop: Stop, weight: bool, fits: bool) -> Verdict
    ensures { result ≡ end_verdict_by stop weight fits }
{
    match stop {
        Stop::Done => {
            require(weight, Refusal::Weight)?;
            require(fits, Refusal::Tape)
        }
        Stop::TooManyFrames => Err(Refusal::Frames),
        Stop::StatusStops => Err(Refusal::Status),
    }
}

// The verdict on an issue.
pub fn of_issue(handle: bool, sound: bool, worlds: bool, full: bool, ready: bool) -> Verdict
    ensures { result ≡ issue_verdict_by handle sound worlds full ready }
{
    require(handle, Refusal::Handle)?;
    require(sound, Refusal::Unsound)?;
    require(worlds, Refusal::NotReady)?;
    require(!full, Refusal::Full)?;
    require(ready, Refusal::NotReady)
}

// The verdict on a report.
pub fn of_report(sound: bool, worlds: bool) -> Verdict
    ensures { result ≡ report_verdict_by sound worlds }
{
    require(sound, Refusal::Unsound)?;
    require(worlds, Refusal::Syncing)
}
