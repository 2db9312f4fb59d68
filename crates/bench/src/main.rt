// Plays a script of calls many times over, for the bench: reads the script on standard input (bench/README.md has its layout), plays it
// from a fresh session as often as it says, and writes a checksum of the answers.
#![tactic(auto)]

ghost use Rattle.std.specs.Prelude.{◌<◌, ◌≤◌, length, IfOk};
ghost use Rattle.std.specs.Iterator.{at_most};

use client::ReconciliationStatus;
use refusals::{Refusal, Verdict};
use session::{calls, in_place};
use session_answers::Updated;
use session_issue::Issued;
use session_report::{ReportAnswer, Reported};
use settings::{Settings, TweeningMethod};
use std::io;
use std::io::Read;

// The most words of a script. Script and tape are arrays, since bench/run shows by what the program asks of the C library that the calls
// of a session need no heap.
const SCRIPT_ROOM: usize = 262144;

const BYTE_ROOM: usize = 4 * SCRIPT_ROOM;

// The words of the tape that every update is handed.
const TAPE_ROOM: usize = 256;

// Two sums over numbers: of the numbers, and of the first sum after each of them, so that their order counts.
#[derive(Clone, Copy)]
struct Sums {
    first: u64,
    second: u64,
}

impl Sums {
    // Both sums wrap.
    fn add(&mut self, number: u64) {
        self.first = self.first.wrapping_add(number);
        self.second = self.second.wrapping_add(self.first);
    }

    fn add_refusal(&mut self, verdict: Verdict) {
        self.add(u64::from(refusals::number(verdict)));
    }

    // All steps of a world are those of the frames and those made to catch up.
    fn add_update(&mut self, told: Result<Updated, Refusal>, tape: &[u32]) {
        self.add_refusal(told.map(|_| ()));
        let answer = told.unwrap_or(Updated::unplayed(false));
        self.add(u64::from(answer.frames) + u64::from(answer.steps));
        self.add(answer.words as u64);
        for word in tape.iter().take(answer.words) {
            self.add(u64::from(*word));
        }
    }

    fn add_issue(&mut self, told: Result<Issued, Refusal>) {
        self.add_refusal(told.map(|_| ()));
        let answer = told.unwrap_or(Issued::nothing());
        self.add(u64::from(answer.stamp.0));
    }

    fn add_report(&mut self, told: Result<Reported, Refusal>) {
        let answer = ReportAnswer::of(told);
        self.add_refusal(answer.refusal);
        self.add(status_number(answer.status));
        self.add(u64::from(answer.old.0));
        self.add(time_bits(answer.time));
    }
}

// The number of a status, for the checksum alone.
fn status_number(status: ReconciliationStatus) -> u64 {
    match status {
        ReconciliationStatus::AwaitingSnapshot => 1,
        ReconciliationStatus::Fastforwarding(_) => 2,
        ReconciliationStatus::Blending(_) => 3,
    }
}

// The bits of the time that is displayed.
fn time_bits(time: Option<f64>) -> u64 {
    time.map_or(0, |time| std::num::f64_to_bits_with_nan(time))
}

// A call of a script: each case has a meaning of its own.
#[derive(Drop)]
enum Call<'a> {
    Update {
        delta: f64,
        seconds: f64,
        inbox: &'a [u32],
    },
    Issue {
        handle: u32,
    },
    Report,
}

// The words of a script that are left to read. Past them every word is 0.
#[derive(Drop)]
struct Words<'a>(&'a [u32]);

impl<'a> Words<'a> {
    fn word(&mut self) -> u32
        ensures { length self.new.0.now ≤ length self.old.0.now }
    {
        match self.0 {
            [word, rest @ ..] => {
                self.0 = rest;
                *word
            }
            [] => 0,
        }
    }

    // The float of two words, high word first.
    fn float(&mut self) -> f64
        ensures { length self.new.0.now ≤ length self.old.0.now }
    {
        match self.0 {
            [high, low, rest @ ..] => {
                self.0 = rest;
                float_of(*high, *low)
            }
            _ => {
                self.0 = &[];
                0.0
            }
        }
    }

    // So many words, and none where fewer are left.
    fn inbox(&mut self, count: usize) -> &'a [u32]
        ensures { length self.new.0.now ≤ length self.old.0.now }
    {
        let words = self.0;
        if count <= words.len() {
            self.0 = &words[count..];
            &words[..count]
        } else {
            self.0 = &[];
            &[]
        }
    }

    fn settings(&mut self) -> Settings {
        let timestep = self.float();
        let blend = self.float();
        let lag = self.float();
        let period = self.float();
        let deviation = self.float();
        let skip = self.float();
        let max = self.float();
        let rate = self.float();
        Settings {
            timestep,
            blend,
            lag,
            period,
            deviation,
            skip,
            max,
            needed: self.word(),
            rate,
            m: self.word(),
            method: TweeningMethod::from(self.word()),
        }
    }
}

impl<'a> Iterator for Words<'a> {
    type Item = Call<'a>;

    ghost remaining = { λ s. at_most (length s.0.now) };

    // The next call. A word that begins none ends the script.
    fn next(&mut self) -> Option<Call<'a>> {
        let (kind, rest) = self.0.split_first()?;
        self.0 = rest;
        match *kind {
            1 => {
                let delta = self.float();
                let seconds = self.float();
                let count = self.word() as usize;
                let inbox = self.inbox(count);
                Some(Call::Update {
                    delta,
                    seconds,
                    inbox,
                })
            }
            2 => {
                let handle = self.word();
                Some(Call::Issue { handle })
            }
            3 => Some(Call::Report),
            _ => None,
        }
    }
}

// The float of 64 bits, high word first; 0 for the bits of a NaN.
fn float_of(high: u32, low: u32) -> f64 {
    let bits = u64::from(high) << 32 | u64::from(low);
    let x = std::num::f64_from_bits_with_nan(bits);
    if x.is_nan() { 0.0 } else { x }
}

// Plays the script once from a fresh session.
fn play(script: &[u32], tape: &mut [u32], sums: &mut Sums) {
    let mut words = Words(script);
    let opened = calls::open(words.settings());
    sums.add_refusal(opened.refusal);
    let mut session = opened.session;
    for call in words {
        match call {
            Call::Update {
                delta,
                seconds,
                inbox,
            } => {
                let told = in_place::update(&mut session, delta, seconds, inbox, tape);
                sums.add_update(told, tape);
            }
            Call::Issue { handle } => sums.add_issue(in_place::issue(&mut session, handle)),
            Call::Report => sums.add_report(in_place::report(&session)),
        }
    }
}

// Reads the bytes of a script, as many as there is room for, and gives how many there are. `io::copy` would do too, but bench/run adds up
// frames, and the buffer of a copy, 8 KB, is more than what an update takes below `main`.
fn read_bytes(stdin: &mut impl Read, bytes: &mut [u8]) -> io::Result<usize>
    ensures { IfOk result (λ n. n ≤ length bytes.old) }
{
    let mut count = 0;
    while count < bytes.len() {
        match stdin.read(&mut bytes[count..])? {
            0 => break,
            n => count += n,
        }
    }
    Ok(count)
}

// Reads the words of a script, low byte first. Its room is that of the arrays of `main`: with slices the check ran out of its stack.
fn read_script(
    stdin: &mut impl Read,
    bytes: &mut [u8; BYTE_ROOM],
    script: &mut [u32; SCRIPT_ROOM],
) -> io::Result<()> {
    let count = read_bytes(stdin, bytes)?;
    let (words, _) = bytes[..count].as_chunks::<4>();
    for (word, bytes) in script.iter_mut().zip(words) {
        *word = u32::from_le_bytes(*bytes);
    }
    Ok(())
}

// Plays the script as often as its first word says.
fn main(rt: HostRuntime) -> io::Result<()> {
    let mut bytes = [0u8; BYTE_ROOM];
    let mut script = [0u32; SCRIPT_ROOM];
    let mut tape = [0u32; TAPE_ROOM];
    read_script(&mut rt.stdin(), &mut bytes, &mut script)?;
    let mut sums = Sums {
        first: 0,
        second: 0,
    };
    for _ in 0..script[0] {
        play(&script[1..], &mut tape, &mut sums);
    }
    println!(rt; "{:016x}{:016x}", sums.first, sums.second)
}
