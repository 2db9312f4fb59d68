// The input as lines of fields, with one space between two fields. It is read byte by byte, and no more of a field is kept than its value
// has room for, so that a line may have any length.
ghost use Rattle.std.specs.Prelude.{◌+◌, ◌*◌, ◌<◌, ◌≤◌, IfSome, IfOk};
ghost use Rattle.std.specs.Iterator.{at_most};

use super::stop::Stop;
use std::alloc::{AllocError, Global};
use std::io;
use std::io::{BufRead, BufReader, Read};

// The longest name of a call has 7 bytes. Of a line's first field one more is kept, so that a longer one is no name.
const NAME_ROOM: usize = 8;

// Of an inbox one word more is kept than it may have, so that one with too many is refused.
const INBOX_ROOM: usize = 4097;

// Of samples one byte more is kept than the 64 of the longest right call have. More are as wrong a length, which the call itself refuses.
pub const SAMPLE_ROOM: usize = 513;

// What ended a field: a space, the end of its line, or that of the input.
#[derive(Clone, Copy, PartialEq, Eq)]
pub enum End {
    Space,
    Line,
    Input,
}

// The input, where the reading of it stands, and what was read of a line's list. The lists have their room from the start, so that no line asks for memory.
#[derive(Drop)]
pub struct Input<R: Read + Drop> {
    reader: BufReader<R>,
    words: Vec<u32>,
    bytes: Vec<u8>,
    // what ended the field that was read last; none while a field is read
    end: Option<End>,
    // how a read failed, which ends the input
    failure: Option<io::Error>,
}

// The first bytes of a line's first field.
#[derive(Clone, Copy)]
pub struct Name {
    bytes: [u8; NAME_ROOM],
    len: usize,
}

impl Name {
    pub(crate) fn as_slice(&self) -> &[u8] {
        &self.bytes[..self.len.min(NAME_ROOM)]
    }
}

// The bytes of a field up to what ends it. `left` bounds them, so that a loop over them is proved to end.
#[derive(Drop)]
struct Field<'a, R: Read + Drop> {
    input: &'a mut Input<R>,
    left: u64,
}

impl<R: Read + Drop> Iterator for Field<'_, R> {
    type Item = u8;

    ghost remaining = { λ s. at_most s.left };

    // Inlined, so that a loop over a field takes each byte from the buffer without a call.
    #[inline(always)]
    fn next(&mut self) -> Option<u8> {
        self.left = self.left.checked_sub(1)?;
        self.input.next_of_field()
    }
}

// The digit that a byte of text is, in lower case alone, which `to_digit` would not ask.
fn digit(byte: u8) -> Option<u8>
    ensures { IfSome result (λ d. d < 16) }
{
    match byte {
        b'0'..=b'9' => Some(byte - b'0'),
        b'a'..=b'f' => Some(byte - b'a' + 10),
        _ => None,
    }
}

// A number with one digit more, where the byte is one and the number still fits.
fn with_digit(number: u64, byte: u8, radix: u8) -> Result<u64, Stop>
    ensures { IfOk result (λ n. (number * radix ≤ n) × (n < number * radix + radix)) }
{
    let digit = digit(byte).filter(|d| *d < radix).ok_or(Stop::BadCall)?;
    number
        .checked_mul(u64::from(radix))
        .and_then(|n| n.checked_add(u64::from(digit)))
        .ok_or(Stop::BadCall)
}

impl<R: Read + Drop> Input<R> {
    pub(crate) fn new(alloc: Global, reader: BufReader<R>) -> Result<Input<R>, AllocError> {
        Ok(Input {
            reader,
            words: Vec::with_capacity(alloc, INBOX_ROOM)?,
            bytes: Vec::with_capacity(alloc, SAMPLE_ROOM)?,
            end: Some(End::Line),
            failure: None,
        })
    }

    // The words that were read last, of an update.
    pub(crate) fn inbox(&self) -> &[u32] {
        self.words.as_slice()
    }

    // The bytes that were read last, of a mean.
    pub(crate) fn samples(&self) -> &[u8] {
        self.bytes.as_slice()
    }

    // The next byte of a field; none at its end. One that lies in the buffer is taken here, and no error is carried along with it.
    #[inline(always)]
    fn next_of_field(&mut self) -> Option<u8> {
        match self.reader.buffer().first().copied() {
            Some(byte) if byte != b' ' && byte != b'\n' => {
                self.reader.consume(1);
                Some(byte)
            }
            _ => self.read_on(),
        }
    }

    // The same where the field ends, or the buffer does: then it is filled anew. A read that fails is kept until the line is judged.
    #[inline(never)]
    fn read_on(&mut self) -> Option<u8> {
        let byte = match self.reader.fill_buf() {
            Ok(buffer) => buffer.first().copied(),
            Err(e) => {
                self.failure = Some(e);
                None
            }
        };
        if byte.is_some() {
            self.reader.consume(1);
        }
        let end = match byte {
            Some(b' ') => End::Space,
            Some(b'\n') => End::Line,
            Some(byte) => return Some(byte),
            None => End::Input,
        };
        self.end = Some(end);
        None
    }

    // The bytes that are left of a field.
    fn rest(&mut self) -> Field<'_, R> {
        Field {
            input: self,
            left: u64::MAX,
        }
    }

    // Whether the line has another field.
    pub(crate) fn has_more(&self) -> bool {
        self.end == Some(End::Space)
    }

    // The line ends here.
    pub(crate) fn end_line(&self) -> Result<(), Stop> {
        if self.has_more() {
            return Err(Stop::BadCall);
        }
        Ok(())
    }

    // What ended the field that was read last.
    pub(crate) fn end(&self) -> Option<End> {
        self.end
    }

    // Passes over what is left of a field, where the reading of it stopped before its end.
    pub(crate) fn skip_field(&mut self) {
        if self.end.is_none() {
            for _ in self.rest() {}
        }
    }

    // How a read failed, if one did.
    pub(crate) fn outcome(&mut self) -> Result<(), Stop> {
        match self.failure.take() {
            Some(e) => Err(Stop::Read(e)),
            None => Ok(()),
        }
    }

    // Passes over what is left of a line.
    pub(crate) fn skip_line(&mut self) -> Result<(), Stop> {
        if self.has_more() {
            self.reader.skip_until(b'\n').map_err(Stop::Read)?;
        }
        Ok(())
    }

    // The first bytes of a line's first field.
    pub(crate) fn name(&mut self) -> Result<Name, Stop> {
        let mut name = Name {
            bytes: [0; NAME_ROOM],
            len: 0,
        };
        self.end = None;
        for byte in self.rest() {
            if name.len < NAME_ROOM {
                name.bytes[name.len] = byte;
                name.len += 1;
            }
        }
        Ok(name)
    }

    // The next byte of a field, which must be there.
    fn byte(&mut self) -> Result<u8, Stop> {
        self.next_of_field().ok_or(Stop::BadCall)
    }

    // The first byte of the next field: the line has one only after a space, and it may not be empty.
    fn first_byte(&mut self) -> Result<u8, Stop> {
        if !self.has_more() {
            return Err(Stop::BadCall);
        }
        self.end = None;
        self.byte()
    }

    // The number in decimal that begins with a byte.
    fn decimal_from(&mut self, first: u8) -> Result<u64, Stop> {
        let mut number = with_digit(0, first, 10)?;
        for byte in self.rest() {
            number = with_digit(number, byte, 10)?;
        }
        Ok(number)
    }

    // A number in decimal, without a sign. Read from the stream byte by byte, so not by `parse`.
    pub(crate) fn decimal(&mut self) -> Result<u64, Stop> {
        let first = self.first_byte()?;
        self.decimal_from(first)
    }

    // A number in decimal, cut to 32 bits: what is more stays more than any limit of a call.
    pub(crate) fn decimal_u32(&mut self) -> Result<u32, Stop> {
        Ok(u32::try_from(self.decimal()?).unwrap_or(u32::MAX))
    }

    // A stamp in signed decimal.
    pub(crate) fn stamp(&mut self) -> Result<i16, Stop> {
        let first = self.first_byte()?;
        let is_negative = first == b'-';
        let first = if is_negative { self.byte()? } else { first };
        let size = i32::try_from(self.decimal_from(first)?).map_err(|_| Stop::BadCall)?;
        let value = if is_negative { -size } else { size };
        i16::try_from(value).map_err(|_| Stop::BadCall)
    }

    // A number of so many hexadecimal digits, read in the same way.
    fn hex(&mut self, digits: u32) -> Result<u64, Stop> {
        let mut number = with_digit(0, self.first_byte()?, 16)?;
        for _ in 1..digits {
            number = with_digit(number, self.byte()?, 16)?;
        }
        self.end_field()?;
        Ok(number)
    }

    // A float by its bits.
    pub(crate) fn float(&mut self) -> Result<f64, Stop> {
        Ok(std::num::f64_from_bits_with_nan(self.hex(16)?))
    }

    // A word of an inbox.
    pub(crate) fn word(&mut self) -> Result<u32, Stop> {
        u32::try_from(self.hex(8)?).map_err(|_| Stop::BadCall)
    }

    // Reads words up to the end of the line, of which the first are kept.
    pub(crate) fn read_inbox(&mut self) -> Result<(), Stop> {
        self.words.clear();
        // the bound is for the proof that the loop ends: no line has so many words
        for _ in 0..u64::MAX {
            if !self.has_more() {
                break;
            }
            let word = self.word()?;
            if self.words.len() < INBOX_ROOM {
                self.words.push(word)?;
            }
        }
        Ok(())
    }

    // The field ends here.
    fn end_field(&mut self) -> Result<(), Stop> {
        match self.next_of_field() {
            None => Ok(()),
            Some(_) => Err(Stop::BadCall),
        }
    }

    // Reads bytes of two hexadecimal digits each, or `-` for none, of which the first are kept.
    pub(crate) fn read_samples(&mut self) -> Result<(), Stop> {
        self.bytes.clear();
        let first = self.first_byte()?;
        if first == b'-' {
            return self.end_field();
        }
        let mut bytes = [0; SAMPLE_ROOM];
        let mut count = 0;
        // the first digit of a byte, while its second is to come
        let mut high = digit(first);
        let mut is_good = high.is_some();
        for byte in self.rest() {
            match (high.take(), digit(byte)) {
                (Some(high), Some(low)) => {
                    if count < SAMPLE_ROOM {
                        bytes[count] = high << 4 | low;
                        count += 1;
                    }
                }
                (None, Some(first)) => high = Some(first),
                (_, None) => is_good = false,
            }
        }
        if !is_good || high.is_some() {
            return Err(Stop::BadCall);
        }
        for byte in bytes.iter().take(count) {
            self.bytes.push(*byte)?;
        }
        Ok(())
    }
}
