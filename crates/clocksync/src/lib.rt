// The clock of a session: the offset to the server's clock, measured from clock messages, and when the next request goes out: what
// src/clocksync.rs of crystalorb holds, but for the mean, which is in the crate mean. Every function is total: it has its answer also for a
// clock that is not sound.
#![tactic(auto)]

ghost use Rattle.std.specs.Prelude.{◌≡◌, ◌||◌, ◌≤◌, length};
ghost use Rattle.clocksync.specs.Offset.{offset_of};
ghost use Rattle.clocksync.specs.Clock.{laid_out, new_of, ticked_of, listen_of, heard_of, first_of, other_of, deviates_of, offset_after};
ghost use Rattle.clocksync.specs.Clock.{added_of, pushed_of, settled_of, server_seconds_of, ready_of, timer_ok, sound_clock};
ghost use Rattle.refusals.specs.Limits.{sample_room};

use settings::Settings;

// The clock's state.
#[derive(Clone, Copy)]
pub struct Clock {
    // server_seconds_offset: from the client's to the server's clock in seconds, or none yet
    pub offset: Option<f64>,
    // server_seconds_offset_samples, oldest first: an array and a count, since a session has a fixed size, is Copy, and has its answers with any count
    pub samples: [f64; refusals::SAMPLE_ROOM],
    // how many samples there are
    pub len: usize,
    // seconds_since_last_request_sent
    pub timer: f64,
    // client_id: the number that the server gave this client, or none yet
    pub id: Option<u32>,
}

// A clock whose timer was moved on, and whether a request goes out: a flag, since the clock is there either way.
#[derive(Clone, Copy)]
pub struct Ticked {
    pub clock: Clock,
    pub request: bool,
}

// What the clock messages of an inbox have told so far: the client's number, the offset by the last of them, and whether one named
// another client: a flag, since the others are there either way.
#[derive(Clone, Copy)]
pub struct Heard {
    pub id: Option<u32>,
    pub offset: Option<f64>,
    pub other: bool,
}

impl Clock {
    // A clock that has heard nothing.
    pub fn new() -> Clock
        ensures { result ≡ new_of }
    {
        Clock {
            offset: None,
            samples: [0.0; refusals::SAMPLE_ROOM],
            len: 0,
            timer: 0.0,
            id: None,
        }
    }

    // The clock whose request timer was moved on by delta, and whether a request goes out.
    pub fn tick(self, settings: Settings, delta: f64) -> Ticked
        ensures { result ≡ ticked_of self settings.period delta }
    {
        let mut clock = self;
        let request = clock.move_timer(settings, delta);
        Ticked { clock, request }
    }

    // Moves the request timer on by delta. A request goes out where it is then above the period, and the timer starts anew. Gives whether one does.
    pub fn move_timer(&mut self, settings: Settings, delta: f64) -> bool
        ensures { record { clock = self.new; request = result } ≡ ticked_of self.old settings.period delta }
    {
        let timer = self.timer + delta;
        if timer > settings.period {
            self.timer = 0.0;
            return true;
        }
        self.timer = timer;
        false
    }

    // What is known before an inbox's first clock message.
    pub fn listen(self) -> Heard
        ensures { result ≡ listen_of self }
    {
        Heard {
            id: self.id,
            offset: None,
            other: false,
        }
    }

    // The clock after all clock messages of an inbox.
    pub fn settle(self, settings: Settings, heard: Heard) -> Clock
        ensures { result ≡ settled_of settings self heard }
    {
        let mut clock = self;
        let offset = self.offset_after(settings, heard);
        clock.take(settings, heard, offset);
        clock
    }

    // The offset after all clock messages of an inbox.
    #[tactic(auto, unfolding(crate::specs::Clock::settled_of))]
    pub fn offset_after(&self, settings: Settings, heard: Heard) -> Option<f64>
        ensures { result ≡ (settled_of settings self.now heard).offset }
    {
        match heard.offset {
            None => self.offset,
            Some(x) => self.offset_with(settings, x),
        }
    }

    // Takes what all clock messages of an inbox told, and the offset after them, which its caller has: the client's number is kept, and the last message's
    // offset is a sample.
    #[tactic(auto, unfolding(crate::specs::Clock::settled_of))]
    pub fn take(&mut self, settings: Settings, heard: Heard, offset: Option<f64>)
        requires { offset ≡ (settled_of settings self.old heard).offset }
        ensures { self.new ≡ settled_of settings self.old heard }
    {
        self.id = heard.id;
        if let Some(x) = heard.offset {
            self.push(settings, x);
        }
        self.offset = offset;
    }

    // The offset with one sample more. With the samples to store together their mean is taken: it is the offset where there is none yet, or where it
    // deviates too far.
    fn offset_with(&self, settings: Settings, x: f64) -> Option<f64>
        ensures { result ≡ (added_of settings self.now x).offset }
    {
        let n = self.len.min(refusals::MOST_SAMPLES);
        let mut all = laid(&self.samples[..n]);
        all[n] = x;
        let count = n + 1;
        if count < settings.samples_to_store() {
            return self.offset;
        }
        let mean = mean::mean_of(&all[..count], settings.samples_to_discard());
        synced(self.offset, mean, settings.deviation)
    }

    // One sample more. With the samples to store together the oldest goes.
    fn push(&mut self, settings: Settings, x: f64)
        ensures { self.new ≡ pushed_of settings self.old x }
    {
        let n = self.len.min(refusals::MOST_SAMPLES);
        self.samples = laid(&self.samples[..n]);
        self.samples[n] = x;
        let count = n + 1;
        if count < settings.samples_to_store() {
            self.len = count;
            return;
        }
        self.samples = laid(&self.samples[1..count]);
        self.len = n;
    }

    // The server's time at a time of this client, or none before the clock is synced.
    pub fn server_seconds(self, seconds: f64) -> Option<f64>
        ensures { result ≡ server_seconds_of self.offset seconds }
    {
        self.offset.map(|x| seconds + x)
    }

    // Whether there is an offset and the client's number is known.
    pub fn is_ready(self) -> bool
        ensures { result ≡ ready_of self }
    {
        self.offset.is_some() && self.id.is_some()
    }

    // Whether the clock is as calls leave it: fewer samples than are stored, samples and offset within 2^33, and the timer finite and at
    // most 3,600.
    #[tactic(auto, unfolding(crate::specs::Clock::sound_clock))]
    pub fn is_sound(&self, settings: Settings) -> bool
        ensures { result ≡ sound_clock settings self.now }
    {
        let n = self.len;
        n < settings.samples_to_store()
            && n <= refusals::MOST_SAMPLES
            && mean::all_sound(&self.samples[..n])
            && timer_sound(self.timer)
            && self.offset.is_none_or(mean::sample_sound)
    }
}

impl Heard {
    // One clock message more: its client number, its send time and the server's time, received at this client's time `seconds`.
    #[tactic(auto, unfolding(crate::specs::Clock::heard_of))]
    pub fn hear(self, id: u32, send: f64, server: f64, seconds: f64) -> Heard
        ensures { result ≡ heard_of seconds self id send server }
    {
        Heard {
            id: first_id(self.id, id),
            offset: Some(measured_offset(send, server, seconds)),
            other: met_other(self.other, self.id, id),
        }
    }
}

// The client's number after a message: the first that came.
fn first_id(known: Option<u32>, id: u32) -> Option<u32>
    ensures { result ≡ first_of known id }
{
    known.or(Some(id))
}

// Whether this message's number, or one before it, is another than the client's.
fn met_other(was: bool, known: Option<u32>, id: u32) -> bool
    ensures { result ≡ was || other_of known id }
{
    was || known.is_some_and(|n| n != id)
}

// The offset that a clock message measures: the server's time less the middle of the client's two times.
pub(crate) fn measured_offset(send: f64, server: f64, seconds: f64) -> f64
    ensures { result ≡ offset_of send server seconds }
{
    server - (send + seconds) / 2.0
}

// Samples laid out from the front, the slots after them at 0. An array, which a clock holds: no heap, and a session of a fixed size.
pub fn laid(samples: &[f64]) -> [f64; refusals::SAMPLE_ROOM]
    requires { length samples.now ≤ sample_room }
    ensures { result ≡ laid_out samples.now }
{
    let mut out = [0.0; refusals::SAMPLE_ROOM];
    out[..samples.len()].copy_from_slice(samples);
    out
}

// Whether the mean is further from the offset than is tolerable.
fn deviates(mean: f64, offset: f64, deviation: f64) -> bool
    ensures { result ≡ deviates_of mean offset deviation }
{
    (mean - offset).abs() > deviation
}

// The offset after a mean was taken.
pub fn synced(old: Option<f64>, mean: f64, deviation: f64) -> Option<f64>
    ensures { result ≡ offset_after old mean deviation }
{
    match old {
        Some(x) if !deviates(mean, x, deviation) => old,
        _ => Some(mean),
    }
}

// Whether the timer is finite and at most 3,600.
pub fn timer_sound(timer: f64) -> bool
    ensures { result ≡ timer_ok timer }
{
    timer.is_finite() && timer <= refusals::HOUR
}
