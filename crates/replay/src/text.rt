// The text of single values in answers. The types that print are this program's own, since the values' types belong to the client's crates.
ghost use Rattle.std.specs.Iterator.{IsFinite};

use client::{Ledger, QueuedSnapshot};
use command::CommandBuffer;
use refusals::Verdict;
use std::fmt;
use std::fmt::{Display, Formatter};
use timestamp::Timestamp;

// A float, by the digits of its bits.
#[derive(Drop)]
pub struct Bits(pub f64);

impl Display for Bits {
    fn fmt<W: fmt::Write>(&self, f: &mut Formatter<W>) -> fmt::Result {
        write!(f, "{:016x}", std::num::f64_to_bits_with_nan(self.0))
    }
}

// A stamp, in signed decimal.
#[derive(Drop)]
pub struct Stamp(pub Timestamp);

impl Display for Stamp {
    fn fmt<W: fmt::Write>(&self, f: &mut Formatter<W>) -> fmt::Result {
        write!(f, "{}", i16::from(self.0))
    }
}

// A value, or `none`.
#[derive(Drop)]
pub struct OrNone<T>(pub Option<T>);

impl<T: Display> Display for OrNone<T> {
    fn fmt<W: fmt::Write>(&self, f: &mut Formatter<W>) -> fmt::Result {
        match &self.0 {
            Some(x) => write!(f, "{x}"),
            None => write!(f, "none"),
        }
    }
}

// The number of a verdict, 0 for an accepted call.
#[derive(Drop)]
pub struct RefusalText(pub Verdict);

impl Display for RefusalText {
    fn fmt<W: fmt::Write>(&self, f: &mut Formatter<W>) -> fmt::Result {
        write!(f, "refusal={}", refusals::number(self.0))
    }
}

pub(crate) fn float_or_none(x: Option<f64>) -> OrNone<Bits> {
    OrNone(x.map(|x| Bits(x)))
}

pub(crate) fn stamp_or_none(stamp: Option<Timestamp>) -> OrNone<Stamp> {
    OrNone(stamp.map(|t| Stamp(t)))
}

pub(crate) fn queued(snapshot: Option<QueuedSnapshot>) -> OrNone<Entry> {
    OrNone(snapshot.map(|s| Entry {
        stamp: s.stamp,
        handle: s.handle,
    }))
}

// A stamp and a handle, as an entry of a buffer and a queued snapshot are given.
#[derive(Drop)]
pub struct Entry {
    stamp: Timestamp,
    handle: u32,
}

impl Display for Entry {
    fn fmt<W: fmt::Write>(&self, f: &mut Formatter<W>) -> fmt::Result {
        let mut text = Ascii::new();
        text.put_entry(self.stamp, self.handle)?;
        text.write_to(f)
    }
}

// A buffer: its midpoint and its entries, oldest first.
#[derive(Drop)]
pub struct BufferText(pub CommandBuffer);

impl Display for BufferText {
    fn fmt<W: fmt::Write>(&self, f: &mut Formatter<W>) -> fmt::Result {
        let buffer = &self.0;
        let mut text = Ascii::new();
        text.put_stamp(buffer.timestamp)?;
        text.put(b'[')?;
        let mut is_first = true;
        for entry in buffer.held() {
            if !is_first {
                text.put(b',')?;
            }
            text.put_entry(command::stamp_of(*entry), command::handle_of(*entry))?;
            is_first = false;
        }
        text.put(b']')?;
        text.write_to(f)
    }
}

// The bytes of a buffer's longest text: the midpoint and its brackets have 8, and an entry has 16, with a stamp of 6, a colon, 8 digits and a comma.
const TEXT_ROOM: usize = 8 + 16 * refusals::BUFFER_ROOM;

// The text of a buffer or an entry, in ASCII, put together byte by byte and then written at once. A `write!` of each of up to 64 entries takes several
// times as long. A byte past the room is an error, which no buffer comes to.
#[derive(Drop)]
struct Ascii {
    bytes: [u8; TEXT_ROOM],
    len: usize,
}

impl Ascii {
    fn new() -> Ascii {
        Ascii {
            bytes: [0; TEXT_ROOM],
            len: 0,
        }
    }

    #[inline(always)]
    fn put(&mut self, byte: u8) -> fmt::Result {
        if self.len >= TEXT_ROOM {
            return Err(fmt::Error);
        }
        self.bytes[self.len] = byte;
        self.len += 1;
        Ok(())
    }

    // The last decimal digit of a number.
    #[inline(always)]
    fn put_digit(&mut self, number: u16) -> fmt::Result {
        self.put(b'0' + (number % 10) as u8)
    }

    // A number in decimal.
    #[inline(always)]
    fn put_decimal(&mut self, number: u16) -> fmt::Result {
        if number >= 10_000 {
            self.put_digit(number / 10_000)?;
        }
        if number >= 1_000 {
            self.put_digit(number / 1_000)?;
        }
        if number >= 100 {
            self.put_digit(number / 100)?;
        }
        if number >= 10 {
            self.put_digit(number / 10)?;
        }
        self.put_digit(number)
    }

    // A number in hexadecimal.
    #[inline(always)]
    fn put_hex(&mut self, number: u32) -> fmt::Result {
        let zeros = (number.leading_zeros() / 4).min(7);
        for place in zeros..8 {
            let digit = (number >> (28 - 4 * place) & 15) as u8;
            let base = if digit < 10 { b'0' } else { b'a' - 10 };
            self.put(base + digit)?;
        }
        Ok(())
    }

    // A stamp, in signed decimal.
    #[inline(always)]
    fn put_stamp(&mut self, stamp: Timestamp) -> fmt::Result {
        let number = i16::from(stamp);
        if number < 0 {
            self.put(b'-')?;
        }
        self.put_decimal(number.unsigned_abs())
    }

    fn put_entry(&mut self, stamp: Timestamp, handle: u32) -> fmt::Result {
        self.put_stamp(stamp)?;
        self.put(b':')?;
        self.put_hex(handle)
    }

    fn write_to<W: fmt::Write>(&self, f: &mut Formatter<W>) -> fmt::Result {
        let bytes = self.bytes.get(..self.len).ok_or(fmt::Error)?;
        f.write_str(str::from_utf8(bytes).map_err(|_| fmt::Error)?)
    }
}

// A word of a tape, in eight hexadecimal digits.
#[derive(Drop)]
pub struct Word(pub u32);

impl Display for Word {
    fn fmt<W: fmt::Write>(&self, f: &mut Formatter<W>) -> fmt::Result {
        write!(f, "{:08x}", self.0)
    }
}

// Writes the items of a list, with a comma between two.
pub(crate) fn write_list<T: Display + Drop, I: Iterator<Item = T>, W: fmt::Write>(
    f: &mut Formatter<W>,
    items: I,
) -> fmt::Result
    requires can { I.can_next items }
    requires ends { IsFinite (I.remaining items) }
{
    let mut is_first = true;
    for item in items {
        let comma = if is_first { "" } else { "," };
        write!(f, "{comma}{item}")?;
        is_first = false;
    }
    Ok(())
}

// The ledger of one side.
#[derive(Drop)]
pub struct LedgerText(pub Ledger);

impl Display for LedgerText {
    fn fmt<W: fmt::Write>(&self, f: &mut Formatter<W>) -> fmt::Result {
        let ledger = self.0;
        let held = ledger.held;
        let taken = ledger.taken;
        let copied = ledger.copied;
        let replaced = ledger.replaced;
        let applied = ledger.applied;
        let leftout = ledger.leftout;
        write!(f, "{held},{taken},{copied},{replaced},{applied},{leftout}")
    }
}
