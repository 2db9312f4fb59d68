// A reader of an inbox: it keeps the caller's words and a position in them, and goes from message to message. What a message is, `message_at` says of the
// words and a place.
ghost use Rattle.std.specs.Prelude.{◌≡◌};
ghost use Rattle.std.specs.Iterator.{YieldsFirst, item_count};
ghost use Rattle.inbox.specs.Reader.{reader_at, left_in};

use super::{Reading, message_at};

// The caller's words and a position in them.
#[derive(Clone, Copy)]
pub struct Reader<'a> {
    pub words: &'a [u32],
    pub at: usize,
}

impl<'a> Reader<'a> {
    // A reader at the first word.
    pub fn new(words: &'a [u32]) -> Reader<'a>
        ensures { result ≡ reader_at words.entry 0 }
    {
        Reader { words, at: 0 }
    }
}

// The messages from the position on, in their order.
impl<'a> Iterator for Reader<'a> {
    type Item = Reading;

    ghost next_gives = { YieldsFirst left_in };

    ghost remaining = { item_count left_in };

    #[tactic(auto, using(crate::proofs::Messages::messages_step, crate::proofs::Messages::messages_end))]
    fn next(&mut self) -> Option<Reading> {
        if self.words.len() <= self.at {
            return None;
        }
        let step = message_at(self.words, self.at);
        self.at = step.next;
        Some(step.message)
    }
}
