// Commands by stamp: received in any order, handed out oldest first. What src/command.rs of crystalorb holds, with an array and a count in
// place of its `BTreeMap`. A buffer has room for 64 entries, and its meaning is the list of the first `len` of its slots; the other slots may
// hold anything. An operation that takes nothing from a buffer leaves its slots as they are; one that changes it leaves it laid out, its
// unused slots blank. Every function is total: a count over 64 reads as 64. An entry is one word: the stamp of its frame, and the command's handle.
#![tactic(auto)]

ghost use Rattle.std.specs.Prelude.{◌≡◌, true, [], ◌∷◌, ◌++◌, not, ◌+◌, ◌≤◌, ◌<◌, length};
ghost use Rattle.refusals.specs.Limits.{buffer_room};
ghost use Rattle.tape.specs.Sides.{side_number};
ghost use Rattle.tape.specs.Tape.{count_end, PutsOn};
ghost use Rattle.command.specs.Lists.{filter_b};
ghost use Rattle.command.specs.Entries.{entry_of, stamp_in, handle_in, plain_entry};
ghost use Rattle.command.specs.Buffer.{held, laid, in_range_of, placed_of, inserted_of, taken_by, full_by};
ghost use Rattle.command.specs.Buffer.{moved_of, drained_of, drained_all_of, command_words, Applies, AppliesAll};
ghost use Rattle.command.specs.Soundness.{sound_buffer, all_blank, tidy_of, known_of};
ghost use Rattle.command.specs.Slots.{HasPlace, Placed};
ghost use Rattle.command.specs.Ranks.{rank_of, rank_within, sifted_of, waits_of, quiet_before, quiet_steps_of, sound_rank, breach, HasRoom};

use tape::{Side, Tape, command_word};
use timestamp::Timestamp;

// The rank of a stamp m around itself: `rank_of` says what ranks are.
const MIDDLE: u16 = 32768;

// The least rank of a stamp after m.
pub const FIRST_AFTER: u32 = 32769;

// The least rank of a stamp in range around m.
pub const RANGE_FROM: u32 = 16385;

// One past the greatest rank of a stamp in range around m.
pub const RANGE_END: u32 = 49151;

// One past the greatest rank of all.
pub const RANKS: u32 = 65536;

// A stamp is in range for the longest where it is so many frames after m.
const MOST_QUIET: u16 = 16382;

// An entry is its stamp times this, and its handle.
const STAMP_PLACE: u64 = 1 << 32;

// There are so many stamps.
const STAMPS: u64 = 1 << 16;

// An entry below this has no bit set above its stamp.
const ENTRY_ROOM: u64 = 1 << 48;

// The entries with their count, and the midpoint of the range of stamps that are accepted, which the Rust calls the timestamp. The entries are an array:
// no heap, and a session of a fixed size, which is `Copy`. An array and a count, and no type of a buffer, whose invariant would ask more of a caller: here any
// count has its answers.
#[derive(Clone, Copy)]
pub struct CommandBuffer {
    pub entries: [u64; refusals::BUFFER_ROOM],
    pub len: usize,
    pub timestamp: Timestamp,
}

// The entries whose rank around a stamp is `from` or more and below `end`. Ranks are numbers: `rank_of` says what they are.
#[derive(Clone, Copy)]
pub struct Span {
    pub around: Timestamp,
    pub from: u32,
    pub end: u32,
}

impl Span {
    // Whether an entry is among them.
    #[tactic(auto, unfolding(crate::specs::Ranks::spanned))]
    pub fn holds(self, entry: u64) -> bool
        ensures { result ≡ rank_within self.around self.from self.end entry }
    {
        let k = rank_in(entry, self.around);
        (self.from..self.end).contains(&k)
    }
}

// What became of an entry handed to `insert`. No Result: none of the three is a failure of the call, and what it means is for the caller to say.
#[derive(Clone, Copy)]
pub enum Outcome {
    Taken,
    OutOfRange,
    Full,
}

impl Outcome {
    // Whether the buffer that takes the entry was full.
    pub fn is_full(self) -> bool
        ensures { result ≡ full_by self }
    {
        matches!(self, Outcome::Full)
    }

    // How many entries were put in.
    pub fn taken(self) -> usize
        ensures { result ≡ taken_by self }
    {
        match self {
            Outcome::Taken => 1,
            Outcome::OutOfRange | Outcome::Full => 0,
        }
    }
}

// The entry of a command: the stamp of the frame that it is for, times 2^32, and its handle. A word, and no struct: words can be lent as a slice, and have
// no padding; a struct of a stamp of 16 bits and a handle of 32 would have two bytes in each slot that nothing determines.
#[tactic(auto, unfolding(crate::specs::Entries::entry_of))]
pub fn entry_of(stamp: Timestamp, handle: u32) -> u64
    ensures { result ≡ entry_of stamp handle }
{
    u64::from(stamp.0) * STAMP_PLACE + u64::from(handle)
}

// The stamp of an entry.
#[tactic(auto, unfolding(crate::specs::Entries::stamp_in))]
pub fn stamp_of(entry: u64) -> Timestamp
    ensures { result.0 ≡ stamp_in entry }
{
    Timestamp((entry / STAMP_PLACE % STAMPS) as u16)
}

// The handle of an entry.
#[tactic(auto, unfolding(crate::specs::Entries::handle_in))]
pub fn handle_of(entry: u64) -> u32
    ensures { result ≡ handle_in entry }
{
    (entry % STAMP_PLACE) as u32
}

// Whether an entry's handle is within 24 bits, and its bits above the stamp are 0.
#[tactic(auto, unfolding(crate::specs::Entries::plain_entry))]
fn is_plain(entry: u64) -> bool
    ensures { result ≡ plain_entry entry }
{
    entry < ENTRY_ROOM && handle_of(entry) < refusals::HANDLE_ROOM
}

impl CommandBuffer {
    // A buffer that holds nothing.
    #[tactic(auto, unfolding(crate::specs::Buffer::laid))]
    pub fn new(timestamp: Timestamp) -> CommandBuffer
        ensures { result ≡ laid [] timestamp }
    {
        CommandBuffer {
            entries: [0; refusals::BUFFER_ROOM],
            len: 0,
            timestamp,
        }
    }

    // The entries that it holds, oldest first.
    pub fn held(&self) -> &[u64]
        ensures held { result.now ≡ held self.now }
        ensures few { length result.now ≤ buffer_room }
    {
        &self.entries[..self.len.min(refusals::BUFFER_ROOM)]
    }

    // How many entries it holds.
    pub fn held_count(&self) -> usize
        ensures { result ≡ length (held self.now) }
    {
        self.held().len()
    }

    // Moves the midpoint and keeps exactly the entries in the new range. Gives how many it drops.
    pub fn update_timestamp(&mut self, t: Timestamp) -> usize
        ensures { record { buffer = self.new; dropped = result } ≡ moved_of self.old t }
    {
        self.timestamp = t;
        let in_range = Span {
            around: t,
            from: RANGE_FROM,
            end: RANGE_END,
        };
        self.sift(in_range)
    }

    // Whether a step to a stamp leaves the buffer as it is: nothing is due, and nothing leaves the range. One that holds nothing is not read.
    // No call asks it today: a step asks `quiet_steps`. The definitions of client_level go by its `waits_of`, and it stays as a public promise.
    pub fn waits(&self, t: Timestamp) -> bool
        ensures { result ≡ waits_of self.now t }
    {
        let waiting = Span {
            around: t,
            from: FIRST_AFTER,
            end: RANGE_END,
        };
        self.len == 0 || self.count_outside(waiting) == 0
    }

    // For how many of the next steps, each to the stamp after, the buffer stays as it is: until the first entry is due, and 0 where one is due at the next
    // step or leaves the range at it. Each entry is read once: to end at the first 0 was tried, and takes twice the instructions where 64 entries wait.
    pub fn quiet_steps(&self) -> u16
        ensures { result ≡ quiet_steps_of self.now }
    {
        let next = self.timestamp + 1;
        let mut least = MOST_QUIET;
        for e in self.held() {
            least = least.min(quiet_before(*e, next));
        }
        least
    }

    // Takes an entry that is in range, if there is room, after all entries that are not later than it.
    // No call uses it today: `insert_known` goes from command to command. It stays as a public promise.
    pub fn insert(&mut self, entry: u64) -> Outcome
        ensures { record { outcome = result; buffer = self.new } ≡ inserted_of self.old entry }
    {
        let mut tidy = false;
        self.insert_known(entry, &mut tidy)
    }

    // The same, where `tidy` says whether the buffer is known to be tidy, before and after. Where it is not known the buffer is read for it. An entry goes
    // into a tidy buffer from its end; a buffer that is not tidy is laid out anew.
    pub fn insert_known(&mut self, entry: u64, tidy: &mut bool) -> Outcome
        requires { known_of tidy.old self.old ≡ true }
        ensures inserted { record { outcome = result; buffer = self.new } ≡ inserted_of self.old entry }
        ensures known { known_of tidy.new self.new ≡ true }
    {
        if !in_range(entry, self.timestamp) {
            return Outcome::OutOfRange;
        }
        if refusals::BUFFER_ROOM <= self.len {
            return Outcome::Full;
        }
        if *tidy || self.is_tidy() {
            let n = self.len;
            place_from_end(&mut self.entries, n, self.timestamp, entry);
            self.len = n + 1;
            *tidy = is_plain(entry);
        } else {
            self.place(entry);
        }
        Outcome::Taken
    }

    // Whether it is tidy: sound, and its unused slots blank.
    pub fn is_tidy(&self) -> bool
        ensures { result ≡ tidy_of self.now }
    {
        self.is_sound() && all_blank(&self.entries[self.len.min(refusals::BUFFER_ROOM)..])
    }

    // Takes the entries whose signed difference to s is at most 0. Gives how many it takes.
    pub fn drain_up_to(&mut self, s: Timestamp) -> usize
        ensures { record { buffer = self.new; count = result } ≡ drained_of self.old s }
    {
        let later = Span {
            around: s,
            from: FIRST_AFTER,
            end: RANKS,
        };
        self.sift(later)
    }

    // Takes the same entries, and puts the command word of each on the tape, for a world, oldest first.
    // A side and a tape are handed in together here and below: a buffer does not know its world, nor has it the tape.
    pub fn apply_up_to(&mut self, s: Timestamp, side: Side, tape: &mut Tape<'_>)
        requires { tape.old.at + buffer_room ≤ count_end }
        ensures applied { Applies self.old s (side_number side) tape.old self.new tape.new }
        ensures few { tape.new.at ≤ tape.old.at + buffer_room }
    {
        let due = Span {
            around: s,
            from: 0,
            end: FIRST_AFTER,
        };
        apply_between(self.held(), due, side, tape);
        self.drain_up_to(s);
    }

    // Takes every entry. Gives how many it takes.
    pub fn drain_all(&mut self) -> usize
        ensures { record { buffer = self.new; count = result } ≡ drained_all_of self.old }
    {
        let count = self.held_count();
        if count > 0 {
            *self = CommandBuffer::new(self.timestamp);
        }
        count
    }

    // Takes every entry, and puts the command word of each on the tape, oldest first.
    pub fn apply_all(&mut self, side: Side, tape: &mut Tape<'_>)
        requires { tape.old.at + buffer_room ≤ count_end }
        ensures applied { AppliesAll self.old (side_number side) tape.old self.new tape.new }
        ensures few { tape.new.at ≤ tape.old.at + buffer_room }
    {
        let all = Span {
            around: self.timestamp,
            from: 0,
            end: RANKS,
        };
        apply_between(self.held(), all, side, tape);
        self.drain_all();
    }

    // Whether it is sound: at most 64 entries, in order and in range, every handle within 24 bits, and no spare bit set. Entries in order are in range where
    // the first and the last are. All are read, and breaches counted: to end at the first was tried, and takes 1.6 times the instructions with 64 entries.
    pub fn is_sound(&self) -> bool
        ensures { result ≡ sound_buffer self.now }
    {
        if refusals::BUFFER_ROOM < self.len {
            return false;
        }
        let mut lo = RANGE_FROM;
        let mut breaches: u32 = 0;
        for e in self.held() {
            let k = rank_in(*e, self.timestamp);
            if breaks_rule(k, lo, *e) {
                breaches += 1;
            }
            lo = k;
        }
        breaches == 0 && lo < RANGE_END
    }

    // Takes an entry, where there is room, after all that are not later than it.
    fn place(&mut self, entry: u64)
        requires { length (held self.old) < buffer_room }
        ensures { self.new ≡ laid (placed_of self.old.timestamp entry (held self.old)) self.old.timestamp }
    {
        let was = *self;
        let around = self.timestamp;
        let next = rank_in(entry, around) + 1;
        *self = CommandBuffer::new(around);
        self.extend(
            &was,
            Span {
                around,
                from: 0,
                end: next,
            },
        );
        self.push(entry);
        self.extend(
            &was,
            Span {
                around,
                from: next,
                end: RANKS,
            },
        );
    }

    // Takes one entry more, at the end.
    fn push(&mut self, entry: u64)
        requires { (self.old ≡ laid (held self.old) self.old.timestamp) × (length (held self.old) + 1 ≤ buffer_room) }
        ensures { self.new ≡ laid (held self.old ++ (entry ∷ [])) self.old.timestamp }
    {
        self.entries[self.len] = entry;
        self.len += 1;
    }

    // Takes the entries of another buffer that are in a span, at the end.
    fn extend(&mut self, other: &CommandBuffer, span: Span)
        requires { HasRoom self.old other.now span.around span.from span.end }
        ensures { self.new ≡ laid (held self.old ++ filter_b (rank_within span.around span.from span.end) (held other.now)) self.old.timestamp }
    {
        for e in other.held() {
            if span.holds(*e) {
                self.push(*e);
            }
        }
    }

    // How many entries are not in a span. A loop: `filter` and `count` were tried and are slower, 874 instructions with 64 entries for 743.
    fn count_outside(&self, span: Span) -> usize
        ensures { result ≡ length (filter_b (λ e. not (rank_within span.around span.from span.end e)) (held self.now)) }
    {
        let mut count: usize = 0;
        for e in self.held() {
            if !span.holds(*e) {
                count += 1;
            }
        }
        count
    }

    // Keeps exactly the entries in a span. Gives how many go.
    fn sift(&mut self, span: Span) -> usize
        ensures { record { buffer = self.new; count = result } ≡ sifted_of self.old span.around span.from span.end }
    {
        let count = self.count_outside(span);
        if count > 0 {
            let was = *self;
            *self = CommandBuffer::new(self.timestamp);
            self.extend(&was, span);
        }
        count
    }
}

// Whether slots are blank.
fn all_blank(slots: &[u64]) -> bool
    ensures { result ≡ all_blank slots.now }
{
    slots.iter().all(|e| *e == 0)
}

// Puts one entry more into the slots of a tidy buffer of n entries, after all that are not later: from the end, those that are later move up by one slot.
fn place_from_end(slots: &mut [u64], n: usize, around: Timestamp, entry: u64)
    requires { HasPlace slots.old n around }
    ensures { Placed slots.old n around entry slots.new }
{
    let k = rank_in(entry, around);
    let mut i = n;
    while 0 < i {
        let before = slots[i - 1];
        if rank_in(before, around) <= k {
            slots[i] = entry;
            return;
        }
        slots[i] = before;
        i -= 1;
    }
    slots[0] = entry;
}

// Whether an entry of rank k is before rank lo, or has a spare bit set.
#[tactic(auto, unfolding(crate::specs::Ranks::breach))]
fn breaks_rule(k: u32, lo: u32, entry: u64) -> bool
    ensures { result ≡ breach lo k entry }
{
    k < lo || !is_plain(entry)
}

// Whether an entry of rank k is in range and not before rank lo, and has no spare bit set.
// No call asks it today: `is_sound` tests the range once for all entries. It stays as a public promise.
#[tactic(auto, unfolding(crate::specs::Ranks::sound_rank))]
pub fn entry_sound(k: u32, lo: u32, entry: u64) -> bool
    ensures { result ≡ sound_rank k lo entry }
{
    lo <= k && (RANGE_FROM..RANGE_END).contains(&k) && is_plain(entry)
}

// The rank of a stamp around m: its signed difference to m, plus 32,768. Ranks stand in the order of the signed differences.
#[tactic(auto, unfolding(crate::specs::Ranks::rank_of))]
fn rank_of(s: Timestamp, m: Timestamp) -> u32
    ensures { result ≡ rank_of m.0 s.0 }
{
    u32::from((s - m + MIDDLE).0)
}

// Whether an entry is in the accepted range around m.
// This is document 01's test, by signed differences; a span's goes by ranks, and RANGE_FROM to RANGE_END is the same range.
#[tactic(auto, unfolding(crate::specs::Buffer::in_range_of))]
pub fn in_range(entry: u64, m: Timestamp) -> bool
    ensures { result ≡ in_range_of m entry }
{
    stamp_of(entry).in_comparable_range(m)
}

// The rank of an entry's stamp around m.
pub fn rank_in(entry: u64, m: Timestamp) -> u32
    ensures { result ≡ rank_of m.0 (stamp_in entry) }
{
    rank_of(stamp_of(entry), m)
}

// For how many steps, the first of them to a stamp, an entry is neither due nor out of range.
#[tactic(auto, unfolding(crate::specs::Ranks::quiet_before))]
fn quiet_before(entry: u64, next: Timestamp) -> u16
    ensures { result ≡ quiet_before next.0 entry }
{
    let ahead = (stamp_of(entry) - next).0;
    if ahead <= MOST_QUIET { ahead } else { 0 }
}

// Puts the command words of the entries in a span, in their order.
fn apply_between(entries: &[u64], span: Span, side: Side, tape: &mut Tape<'_>)
    requires { (length entries.now ≤ buffer_room) × (tape.old.at + buffer_room ≤ count_end) }
    ensures { PutsOn tape.old (command_words (side_number side) (filter_b (rank_within span.around span.from span.end) entries.now)) tape.new }
{
    for e in entries {
        if span.holds(*e) {
            tape.put(command_word(side, handle_of(*e)));
        }
    }
}
