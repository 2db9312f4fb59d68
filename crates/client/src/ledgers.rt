// The ledger of one side's command buffer, and every way in which it is counted on. Counts wrap at 64 bits; that none ever does is a law.
ghost use Rattle.std.specs.Prelude.{◌≡◌};
ghost use Rattle.client.specs.Ledgers.{empty_ledger, with_held, takes, applies, loads, closed_of};

use super::Ledger;
use command::CommandBuffer;
use simulation::{Loaded, Stepped};

impl Ledger {
    // A ledger with nothing in it.
    pub fn empty() -> Ledger
        ensures { result ≡ empty_ledger }
    {
        Ledger {
            held: 0,
            taken: 0,
            copied: 0,
            replaced: 0,
            applied: 0,
            leftout: 0,
        }
    }

    // Counts so many more taken.
    pub fn count_taken(&mut self, taken: usize)
        ensures { self.new ≡ takes self.old taken }
    {
        self.taken = self.taken.wrapping_add(taken);
    }

    // Counts so many more applied and left out.
    pub fn count(&mut self, done: Stepped)
        ensures { self.new ≡ applies self.old done.applied done.leftout }
    {
        self.applied = self.applied.wrapping_add(done.applied);
        self.leftout = self.leftout.wrapping_add(done.leftout);
    }

    // Counts so many more copied, replaced and left out.
    pub fn count_load(&mut self, done: Loaded)
        ensures { self.new ≡ loads self.old done.copied done.replaced done.leftout }
    {
        self.copied = self.copied.wrapping_add(done.copied);
        self.replaced = self.replaced.wrapping_add(done.replaced);
        self.leftout = self.leftout.wrapping_add(done.leftout);
    }

    // The ledger with so many held.
    pub fn holding(self, held: usize) -> Ledger
        ensures { result ≡ with_held self held }
    {
        Ledger { held, ..self }
    }

    // The ledger with what its side holds now, at the end of a call.
    pub fn closed(self, buffer: &CommandBuffer) -> Ledger
        ensures { result ≡ closed_of self buffer.now }
    {
        self.holding(buffer.held_count())
    }
}
