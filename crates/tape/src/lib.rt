// The tape: the words that a client leaves for its host, one after the other. A word past the tape's end is counted and not written,
// so that the count says how long the tape should have been. The Rust has no such thing: the tape stands for the calls on its `World`.
#![tactic(auto)]

ghost use Rattle.std.specs.Prelude.{◌≡◌, [], ◌∷◌, ◌+◌, ◌%◌, ◌<◌, ◌≤◌};
ghost use Rattle.refusals.specs.Limits.{handle_room};
ghost use Rattle.tape.specs.Sides.{side_number, side_named, other_of};
ghost use Rattle.tape.specs.Words.{side_bit, step_word, command_word, snapshot_word, publish_word, mix_word, none_word, weight_word, weight_words, mix_words};
ghost use Rattle.tape.specs.Tape.{count_end, publish_room, PutsOn, cleared};

// One of the two worlds.
#[derive(Clone, Copy, PartialEq, Eq)]
pub enum Side {
    Left,
    Right,
}

impl Side {
    // The other side.
    pub fn other(self) -> Side
        ensures { result ≡ other_of self }
    {
        match self {
            Side::Left => Side::Right,
            Side::Right => Side::Left,
        }
    }
}

// The side of a number: 0 is left, any other number right. No call takes one today; it says what a number names.
impl From<u32> for Side {
    ghost from_gives = { λ n side. side ≡ side_named n };

    fn from(n: u32) -> Side {
        if n == 0 { Side::Left } else { Side::Right }
    }
}

// A tape that is lent, and the place of its next word. Each function that puts words on it asks that the count has room for them; an invariant cannot say
// that, since each word adds one.
#[derive(Drop)]
pub struct Tape<'a> {
    pub words: &'a mut [u32],
    pub at: usize,
}

impl Tape<'_> {
    // Puts one word, where there is room; the next place is counted in any case.
    pub fn put(&mut self, word: u32)
        requires { self.old.at < count_end }
        ensures { PutsOn self.old (word ∷ []) self.new }
    {
        if self.at < self.words.len() {
            self.words[self.at] = word;
        }
        self.at += 1;
    }

    // Puts the four words of a mix: its own, and the three of its weight.
    pub fn put_mix(&mut self, weight: f64)
        requires { self.old.at + publish_room ≤ count_end }
        ensures { PutsOn self.old (mix_words weight) self.new }
    {
        let bits = std::num::f64_to_bits_with_nan(weight);
        self.put(mix_word());
        self.put_weight(bits);
    }

    // Puts the three words of a weight's bits, the high one first.
    fn put_weight(&mut self, bits: u64)
        requires { self.old.at + 3 ≤ count_end }
        ensures { PutsOn self.old (weight_words bits) self.new }
    {
        self.put(weight_word(bits / HIGHEST_PART));
        self.put(weight_word(bits / WEIGHT_PART));
        self.put(weight_word(bits));
    }
}

// Zeroes the tape from a place to its end.
pub fn clear(tape: &mut [u32], from: usize)
    ensures { tape.new ≡ cleared tape.old from }
{
    if from < tape.len() {
        tape[from..].fill(0);
    }
}

// A word's kind stands in its top 4 bits.
const STEP: u32 = 1 << 28;

const COMMAND: u32 = 2 << 28;

const SNAPSHOT: u32 = 3 << 28;

const PUBLISH: u32 = 4 << 28;

const MIX: u32 = 5 << 28;

const WEIGHT: u32 = 6 << 28;

const NONE: u32 = 7 << 28;

// The bit of the right world.
const RIGHT: u32 = 1 << 27;

// A word of a weight holds 28 bits of it: these are its parts from bit 28 and from bit 56 on.
const WEIGHT_PART: u64 = 1 << 28;

const HIGHEST_PART: u64 = 1 << 56;

// The bit of a side.
fn side_bit(side: Side) -> u32
    ensures { result ≡ side_bit (side_number side) }
{
    match side {
        Side::Left => 0,
        Side::Right => RIGHT,
    }
}

// The word of a kind for a world.
fn sided(kind: u32, side: Side) -> u32
    requires { kind ≤ PUBLISH }
    ensures { result ≡ kind + side_bit (side_number side) }
{
    kind + side_bit(side)
}

// The word of a kind for a world, with a handle.
fn handled(kind: u32, side: Side, handle: u32) -> u32
    requires { kind ≤ PUBLISH }
    ensures { result ≡ kind + (side_bit (side_number side) + handle % handle_room) }
{
    sided(kind, side) + handle % refusals::HANDLE_ROOM
}

// The word for a step of a world.
#[tactic(auto, unfolding(crate::specs::Words::step_word))]
pub fn step_word(side: Side) -> u32
    ensures { result ≡ step_word (side_number side) }
{
    sided(STEP, side)
}

// The word for a command applied to a world.
#[tactic(auto, unfolding(crate::specs::Words::command_word))]
pub fn command_word(side: Side, handle: u32) -> u32
    ensures { result ≡ command_word (side_number side) handle }
{
    handled(COMMAND, side, handle)
}

// The word for a snapshot loaded into a world.
#[tactic(auto, unfolding(crate::specs::Words::snapshot_word))]
pub fn snapshot_word(side: Side, handle: u32) -> u32
    ensures { result ≡ snapshot_word (side_number side) handle }
{
    handled(SNAPSHOT, side, handle)
}

// The word for the publishing of a world as it is.
#[tactic(auto, unfolding(crate::specs::Words::publish_word))]
pub fn publish_word(side: Side) -> u32
    ensures { result ≡ publish_word (side_number side) }
{
    sided(PUBLISH, side)
}

// The word for the publishing of a mix of the two worlds.
#[tactic(auto, unfolding(crate::specs::Words::mix_word))]
pub(crate) fn mix_word() -> u32
    ensures { result ≡ mix_word }
{
    MIX
}

// The word for the publishing of nothing.
#[tactic(auto, unfolding(crate::specs::Words::none_word))]
pub fn none_word() -> u32
    ensures { result ≡ none_word }
{
    NONE
}

// The word that holds the low 28 bits of a number as a part of a weight.
#[tactic(auto, unfolding(crate::specs::Words::weight_word))]
fn weight_word(part: u64) -> u32
    ensures { result ≡ weight_word part }
{
    WEIGHT + (part % WEIGHT_PART) as u32
}
