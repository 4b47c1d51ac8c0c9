// A chip that keeps the number of its words in the first word of its memory, and writes each word before the number.
ghost use Rattle.std.specs.Prelude.{◌≡◌, ℕ, ◌+◌, Bool, true, List, [], is_ok, MatchResult};
ghost use Rattle.std.proofs.Common.{rules};
ghost use Rattle.chip.specs.Leaf.{LeafPasses};
ghost use Rattle.chip.specs.Count.{count_room, count_of, count_words, count_sound};
ghost use Rattle.chip.specs.declared.refusal.Refusal.TheVariants.{UnfitMemory};
ghost use Rattle.chip.specs.CountLaws.{count_bounded, count_keeps};
ghost use Rattle.chip.specs.LeafLaws.{leaf_joined};

use crate::chip::Chip;
use crate::memory::Memory;
use crate::refusal::{Refusal, Unmounted};
use crate::words::{BLANK, MOST};

pub struct CountChip<M: Memory> {
    memory: M,
    ghost sound: { count_sound (M.Memory.holds memory) ≡ true },
}

impl<M: Memory> CountChip<M> {
    // A chip on what a memory holds; one that no count chip left is handed back.
    pub fn mount(memory: M) -> Result<CountChip<M>, Unmounted<M>>
        ensures sound { is_ok result ≡ count_sound (M.Memory.holds memory) }
        ensures chip { MatchResult result (λ c. c.memory ≡ memory) (λ e. (e.memory ≡ memory) × (e.refusal ≡ UnfitMemory)) }
    {
        let len = memory.len();
        if len < 2 || len > MOST + 1 || memory.load(0) as usize >= len {
            return Err(Unmounted::unfit(memory));
        }
        Ok(CountChip { memory })
    }

    pub fn memory(&self) -> &M
        ensures { result.now ≡ self.now.memory }
    {
        &self.memory
    }

    pub fn into_memory(self) -> M
        ensures { result ≡ self.memory }
    {
        let CountChip { memory } = self;
        memory
    }

    fn room(&self) -> usize
        ensures { result ≡ count_room (M.Memory.holds self.now.memory) }
    {
        self.memory.len() - 1
    }

    fn words(&self) -> usize
        ensures { result ≡ count_of (M.Memory.holds self.now.memory) }
    {
        self.memory.load(0) as usize
    }
}

impl<M: Memory> Chip for CountChip<M> {
    ghost accepted = { λ s. count_words (M.Memory.holds s.memory) };

    ghost settled = { λ s. count_of (M.Memory.holds s.memory) };

    ghost room = { λ s. count_room (M.Memory.holds s.memory) };

    ghost early = { λ s. count_of (M.Memory.holds s.memory) + 1 };

    ghost left = { λ s. count_words (M.Memory.holds s.memory) };

    ghost passes = { λ s ls t. LeafPasses M.Memory.holds M.Memory.through count_sound count_words s.memory ls t.memory };

    ghost bounded = { λ s. count_bounded (M.Memory.holds s.memory) s.sound };

    ghost keeps = { λ s. count_keeps (M.Memory.holds s.memory) s.sound };

    ghost rests = { Prim.search rules };

    ghost joins = { λ a b c xs ys here more. leaf_joined M.Memory.holds M.Memory.through count_sound count_words M.Memory.joins a.memory b.memory c.memory xs ys here more };

    ghost gapless = { Prim.search rules };

    fn capacity(&self) -> u32 {
        self.room() as u32
    }

    fn count(&self) -> u32 {
        self.words() as u32
    }

    fn read_word(&self, place: u32) -> Result<u32, Refusal> {
        let place = place as usize;
        if place >= self.words() {
            return Err(Refusal::NoSuchWord);
        }
        Ok(self.memory.load(place + 1))
    }

    fn append(&mut self, word: u32) -> Result<(), Refusal> {
        if word == BLANK {
            return Err(Refusal::BlankWord);
        }
        let words = self.words();
        if words >= self.room() {
            return Err(Refusal::ChipFull);
        }
        self.memory.store(words + 1, word);
        self.memory.store(0, (words + 1) as u32);
        Ok(())
    }

    // Every word is settled as soon as its number is written.
    fn settle(&mut self) {}

    // A match: a closure of `map_err` is proved alone, and nothing says there that no mount is refused.
    fn cut(self) -> Result<CountChip<M>, CountChip<M>> {
        let CountChip { memory } = self;
        match CountChip::mount(memory) {
            Ok(chip) => Ok(chip),
            Err(Unmounted { memory, refusal: _ }) => Err(CountChip { memory }),
        }
    }
}
