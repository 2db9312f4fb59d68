// The inbox: words that say commands, snapshots and clock messages. It stands for what a network would hand to the client of crystalorb.
// `message_at` reads the message at a place, and a `Reader` goes from message to message; what an inbox is refused for is in inbox_refusal.
#![tactic(auto)]

ghost use Rattle.std.specs.Prelude.{◌≡◌, ◌+◌, ◌^◌, ◌≤◌, ◌<◌, length, drop};
ghost use Rattle.refusals.specs.Limits.{handle_room};
ghost use Rattle.inbox.specs.Inbox.{due_word_of, head_of, joined_of, float_bits_of, inbox_time_of, clock_of, read_at};
ghost use Rattle.inbox.specs.Inner.{step_of};

use refusals::Refusal;
use timestamp::Timestamp;

pub mod reader;

pub use reader::Reader;

// A message of an inbox.
#[derive(Clone, Copy)]
pub enum Message {
    Command { stamp: Timestamp, handle: u32 },
    Snapshot { stamp: Timestamp, handle: u32 },
    Clock { id: u32, send: f64, server: f64 },
}

// What the words at a place say: a message, or why they say none. It is `Word` for a word of wrong kind, place or spare bits, `Cut` where the words end
// inside the message, and `ClockTime` for a clock message with a time that is not finite or beyond 2^32.
pub type Reading = Result<Message, Refusal>;

// What the words at a place say, and the place after it: the end of the words where no message can follow.
#[derive(Clone, Copy)]
pub struct Step {
    pub message: Reading,
    pub next: usize,
}

// The first word of a message.
#[derive(Clone, Copy)]
enum Head {
    ForCommand(Timestamp),
    ForSnapshot(Timestamp),
    ForClock(u32),
}

// The kind of a word is in its top 4 bits, and its value, below this, in the low 28.
const VALUE_ROOM: u32 = 1 << 28;
// The value of a word that has a stamp is below this: it has 16 bits.
const STAMP_ROOM: u32 = 1 << 16;
// The value of the first of a float's three words is below this: it has 8 bits.
const HIGH_ROOM: u32 = 1 << 8;

// The kinds below are numbers and no enum: document 01 has them as the top 4 bits of a word, and they are compared with bits.

// The kind of a command's first word.
const COMMAND: u32 = 1;
// The kind of a snapshot's first word.
const SNAPSHOT: u32 = 2;
// The kind of a clock message's first word.
const CLOCK: u32 = 3;
// The kind of the word that has a handle.
const HANDLE: u32 = 4;
// The kind of the three words that have a float.
const FLOAT: u32 = 5;

// A command and a snapshot have so many words.
const HANDLE_WORDS: usize = 2;
// A clock message has so many words.
const CLOCK_WORDS: usize = 7;
// The place in a clock message of its send time.
const SEND_AT: usize = 1;
// The place in a clock message of the server's time.
const SERVER_AT: usize = 4;

// The message at a place, and the place after it: the end of the words after one that is wrong or missing.
#[tactic(auto, using(crate::proofs::Steps::read_ok, crate::proofs::Steps::read_err))]
pub fn message_at(words: &[u32], at: usize) -> Step
    requires { at < length words.now }
    ensures { result ≡ read_at words.now at }
{
    match step_at(words, at) {
        Ok(step) => step,
        Err(refusal) => Step {
            message: Err(refusal),
            next: words.len(),
        },
    }
}

// The message at a place, and the place after it, or the refusal of a wrong or missing word, after which no message has a place.
#[tactic(auto, using(crate::proofs::Steps::clock_by))]
fn step_at(words: &[u32], at: usize) -> Result<Step, Refusal>
    requires { at < length words.now }
    ensures { result ≡ step_of words.now at }
{
    match head_of(words[at])? {
        Head::ForCommand(stamp) => {
            let handle = handle_at(words, at + 1)?;
            Ok(Step {
                message: Ok(Message::Command { stamp, handle }),
                next: at + HANDLE_WORDS,
            })
        }
        Head::ForSnapshot(stamp) => {
            let handle = handle_at(words, at + 1)?;
            Ok(Step {
                message: Ok(Message::Snapshot { stamp, handle }),
                next: at + HANDLE_WORDS,
            })
        }
        Head::ForClock(id) => {
            let send = bits_at(words, at + SEND_AT)?;
            let server = bits_at(words, at + SERVER_AT)?;
            Ok(Step {
                message: clock_of(id, send, server),
                next: at + CLOCK_WORDS,
            })
        }
    }
}

// What the first word of a message says.
fn head_of(word: u32) -> Result<Head, Refusal>
    ensures { result ≡ head_of word }
{
    let value = word % VALUE_ROOM;
    match word / VALUE_ROOM {
        COMMAND if value < STAMP_ROOM => Ok(Head::ForCommand(Timestamp(value as u16))),
        SNAPSHOT if value < STAMP_ROOM => Ok(Head::ForSnapshot(Timestamp(value as u16))),
        CLOCK => Ok(Head::ForClock(value)),
        _ => Err(Refusal::Word),
    }
}

// The value of the word at a place, which has to be of the kind (the number in its top bits) and its value below room.
fn word_at(words: &[u32], at: usize, kind: u32, room: u32) -> Result<u32, Refusal>
    ensures { result ≡ due_word_of kind room (drop at words.now) }
{
    let word = *words.get(at).ok_or(Refusal::Cut)?;
    let value = word % VALUE_ROOM;
    refusals::require(word / VALUE_ROOM == kind && value < room, Refusal::Word)?;
    Ok(value)
}

// The handle that the word at a place says.
fn handle_at(words: &[u32], at: usize) -> Result<u32, Refusal>
    ensures { result ≡ due_word_of 4 handle_room (drop at words.now) }
{
    word_at(words, at, HANDLE, refusals::HANDLE_ROOM)
}

// The bits of a float that the three words at a place say.
#[tactic(auto, using(crate::proofs::Steps::bits_by))]
fn bits_at(words: &[u32], at: usize) -> Result<u64, Refusal>
    requires { at + 2 ≤ 2 ^ 63 }
    ensures { result ≡ float_bits_of (drop at words.now) }
{
    let high = word_at(words, at, FLOAT, HIGH_ROOM)?;
    let middle = word_at(words, at + 1, FLOAT, VALUE_ROOM)?;
    let low = word_at(words, at + 2, FLOAT, VALUE_ROOM)?;
    Ok(join(high, middle, low))
}

// The 64 bits of a float: 8, 28 and 28 of them, high first.
fn join(high: u32, middle: u32, low: u32) -> u64
    requires high_fits { high < HIGH_ROOM }
    requires middle_fits { middle < VALUE_ROOM }
    requires low_fits { low < VALUE_ROOM }
    ensures { result ≡ joined_of high middle low }
{
    let room = u64::from(VALUE_ROOM);
    (u64::from(high) * room + u64::from(middle)) * room + u64::from(low)
}

// A clock message, both of whose times have to be in range.
#[tactic(auto, unfolding(crate::specs::Inbox::clock_of))]
fn clock_of(id: u32, send: u64, server: u64) -> Reading
    ensures { result ≡ clock_of id send server }
{
    let send = time_of(send)?;
    let server = time_of(server)?;
    Ok(Message::Clock { id, send, server })
}

// The float of a pattern, which has to be finite and within 2^32.
fn time_of(bits: u64) -> Result<f64, Refusal>
    ensures { result ≡ inbox_time_of bits }
{
    let time = std::num::f64_from_bits_with_nan(bits);
    let in_range = timestamp::within(-refusals::LONGEST_TIME, refusals::LONGEST_TIME, time);
    refusals::require(in_range, Refusal::ClockTime)?;
    Ok(time)
}
