// Plays calls: holds what the next call is handed, and writes each answer.
ghost use Rattle.std.specs.Prelude.{◌≡◌, length, min};

use super::answers::{IssueText, MeanText, ReportText, SessionText, UpdateText};
use super::call::Call;
use super::input::{Input, SAMPLE_ROOM};
use super::text::RefusalText;
use session::{calls, in_place};
use session_state::Session;
use settings::{Settings, TweeningMethod};
use std::alloc::{AllocError, Global};
use std::io;
use std::io::{Read, Write};

// The words that a tape is laid out on. No update plays so many.
const TAPE_ROOM: usize = 65536;

// The session that the next call is handed, and the words that tapes are laid out on.
#[derive(Drop)]
pub struct Player {
    session: Session,
    tape: Vec<u32>,
}

// The session before the first `open`: that of an open with settings of 0, which is refused.
fn no_session() -> Session {
    let settings = Settings {
        timestep: 0.0,
        blend: 0.0,
        lag: 0.0,
        period: 0.0,
        deviation: 0.0,
        skip: 0.0,
        max: 0.0,
        needed: 0,
        rate: 0.0,
        m: 0,
        method: TweeningMethod::from(0),
    };
    calls::open(settings).session
}

// The first items of a slice, or all where there are no more.
fn first<T>(all: &mut [T], count: u64) -> &mut [T]
    ensures { length result.now ≡ min (length all.old) count }
{
    let n = all.len().min(count as usize);
    &mut all[..n]
}

impl Player {
    pub(crate) fn new(alloc: Global) -> Result<Player, AllocError> {
        Ok(Player {
            session: no_session(),
            tape: vec![in alloc; 0; TAPE_ROOM]?,
        })
    }

    // Plays a call that was read from an input, and writes its answer.
    pub(crate) fn play<R: Read + Drop, W: Write>(
        &mut self,
        call: Call,
        input: &Input<R>,
        out: &mut W,
    ) -> io::Result<()> {
        match call {
            Call::Open(settings) => self.open(settings, out),
            Call::Update {
                delta,
                seconds,
                length,
            } => self.update(delta, seconds, length, input.inbox(), out),
            Call::Issue { handle } => self.issue(handle, out),
            Call::Report => writeln!(out, "{}", ReportText(in_place::report(&self.session))),
            Call::Session => writeln!(out, "{}", SessionText(self.session)),
            Call::Order(a, b) => writeln!(out, "order {}", host::kadwunge_stamp_order(a, b)),
            Call::Stamp { seconds, timestep } => {
                writeln!(
                    out,
                    "stamp {}",
                    host::kadwunge_frame_stamp(seconds, timestep)
                )
            }
            Call::Mean {
                needed,
                rate,
                length,
            } => mean(needed, rate, length, input.samples(), out),
            Call::Span { span, p, q } => span_frames(span, p, q, out),
        }
    }

    // The session that it returns, refused or not, is the one that the following calls are handed.
    fn open<W: Write>(&mut self, settings: Settings, out: &mut W) -> io::Result<()> {
        let answer = calls::open(settings);
        self.session = answer.session;
        writeln!(out, "open {}", RefusalText(answer.refusal))
    }

    // A tape is handed over with every word ffffffff.
    fn update<W: Write>(
        &mut self,
        delta: f64,
        seconds: f64,
        length: u64,
        inbox: &[u32],
        out: &mut W,
    ) -> io::Result<()> {
        let tape = first(self.tape.as_mut_slice(), length);
        tape.fill(u32::MAX);
        let told = in_place::update(&mut self.session, delta, seconds, inbox, tape);
        writeln!(out, "{}", UpdateText { told, tape })
    }

    fn issue<W: Write>(&mut self, handle: u32, out: &mut W) -> io::Result<()> {
        let told = in_place::issue(&mut self.session, handle);
        writeln!(out, "{}", IssueText(told))
    }
}

// Every byte of the answer is ff before the call, so that what is printed is the call's own.
fn mean<W: Write>(
    needed: u32,
    rate: f64,
    length: u64,
    samples: &[u8],
    out: &mut W,
) -> io::Result<()> {
    let mut answer = [u8::MAX; SAMPLE_ROOM];
    let answer = first(&mut answer, length);
    let refusal = host::kadwunge_mean_of_samples(needed, rate, samples, answer);
    let text = MeanText { answer, length };
    writeln!(out, "mean {refusal} {text}")
}

fn span_frames<W: Write>(span: u64, p: u32, q: u32, out: &mut W) -> io::Result<()> {
    let answer = host::kadwunge_frames_of_span(span, p, q);
    let frames = answer.frames;
    let rest = answer.remainder;
    let refusal = answer.refusal;
    writeln!(out, "span refusal={refusal} frames={frames} rest={rest}")
}
