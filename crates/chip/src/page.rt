// A chip that collects words and programs them into its memory a page at a time.
ghost use Rattle.std.specs.Prelude.{◌≡◌, ℕ, ◌+◌, ◌^◌, ◌<◌, List, [], ◌∷◌, ◌++◌, length, drop, is_ok, MatchResult};
ghost use Rattle.chip.specs.Leaf.{LeafPasses};
ghost use Rattle.chip.specs.Page.{page_words, page_early, page_found, page_sound, all_blank, PageIntact, PageMounted, written, writes};
ghost use Rattle.chip.specs.declared.refusal.Refusal.TheVariants.{UnfitMemory};
ghost use Rattle.chip.specs.PageLaws.{page_bounded, page_keeps};
ghost use Rattle.chip.specs.LeafLaws.{leaf_joined};
ghost use Rattle.std.proofs.Common.{rules};

use crate::chip::Chip;
use crate::memory::Memory;
use crate::refusal::{Refusal, Unmounted};
use crate::words::{BLANK, MOST, PAGE};
use arrayvec::ArrayVec;

pub struct PageChip<M: Memory> {
    memory: M,
    programmed: usize,
    // Accepted words that are not yet programmed.
    waiting: ArrayVec<u32, PAGE>,
    ghost intact: { PageIntact (M.Memory.holds memory) programmed waiting.items },
}

// Programs words in their order, from a place on.
fn program<M: Memory>(memory: &mut M, at: usize, words: &[u32])
    requires { at + length words.now < 2 ^ 64 }
    ensures memory { M.Memory.holds memory.new ≡ written (M.Memory.holds memory.old) at words.now }
    ensures moments { M.Memory.through memory.old (writes (M.Memory.holds memory.old) at words.now) memory.new }
{
    for (i, word) in words.iter().enumerate() {
        memory.store(at + i, *word);
    }
}

// The place of the first blank word, or the end.
fn first_blank<M: Memory>(memory: &M) -> usize
    ensures { result ≡ length (page_found (M.Memory.holds memory.now)) }
{
    let len = memory.len();
    (0..len)
        .find(|place| memory.load(*place) == BLANK)
        .unwrap_or(len)
}

fn is_blank_from<M: Memory>(memory: &M, from: usize) -> bool
    ensures { result ≡ all_blank (drop from (M.Memory.holds memory.now)) }
{
    (from..memory.len()).all(|place| memory.load(place) == BLANK)
}

impl<M: Memory> PageChip<M> {
    // A chip on what a memory holds; one that no page chip left is handed back.
    pub fn mount(memory: M) -> Result<PageChip<M>, Unmounted<M>>
        ensures sound { is_ok result ≡ page_sound (M.Memory.holds memory) }
        ensures chip { MatchResult result (λ c. (c.memory ≡ memory) × PageMounted (M.Memory.holds memory) c.programmed c.waiting.items) (λ e. (e.memory ≡ memory) × (e.refusal ≡ UnfitMemory)) }
    {
        let len = memory.len();
        if len == 0 || len > MOST {
            return Err(Unmounted::unfit(memory));
        }
        let programmed = first_blank(&memory);
        if !is_blank_from(&memory, programmed) {
            return Err(Unmounted::unfit(memory));
        }
        Ok(PageChip {
            memory,
            programmed,
            waiting: ArrayVec::new(),
        })
    }

    pub fn memory(&self) -> &M
        ensures { result.now ≡ self.now.memory }
    {
        &self.memory
    }

    // The memory as it stands; words that wait are lost.
    pub fn into_memory(self) -> M
        ensures { result ≡ self.memory }
    {
        let PageChip {
            memory,
            programmed: _,
            waiting: _,
        } = self;
        memory
    }
}

impl<M: Memory> Chip for PageChip<M> {
    ghost accepted = { λ s. page_words (M.Memory.holds s.memory) s.waiting.items };

    ghost settled = { λ s. s.programmed };

    ghost room = { λ s. length (M.Memory.holds s.memory) };

    ghost early = { λ s. page_early s.programmed s.waiting.items };

    ghost left = { λ s. page_found (M.Memory.holds s.memory) };

    ghost passes = { λ s ls t. LeafPasses M.Memory.holds M.Memory.through page_sound page_found s.memory ls t.memory };

    ghost bounded = { λ s. page_bounded (M.Memory.holds s.memory) s.programmed s.waiting.items s.intact };

    ghost keeps = { λ s. page_keeps (M.Memory.holds s.memory) s.programmed s.waiting.items s.intact };

    ghost rests = { Prim.search rules };

    ghost joins = { λ a b c xs ys here more. leaf_joined M.Memory.holds M.Memory.through page_sound page_found M.Memory.joins a.memory b.memory c.memory xs ys here more };

    ghost gapless = { Prim.search rules };

    fn capacity(&self) -> u32 {
        self.memory.len() as u32
    }

    fn count(&self) -> u32 {
        (self.programmed + self.waiting.len()) as u32
    }

    fn read_word(&self, place: u32) -> Result<u32, Refusal> {
        if place >= self.count() {
            return Err(Refusal::NoSuchWord);
        }
        let place = place as usize;
        if place < self.programmed {
            Ok(self.memory.load(place))
        } else {
            Ok(self.waiting[place - self.programmed])
        }
    }

    fn append(&mut self, word: u32) -> Result<(), Refusal> {
        if word == BLANK {
            return Err(Refusal::BlankWord);
        }
        if self.count() >= self.capacity() {
            return Err(Refusal::ChipFull);
        }
        self.waiting.push(word);
        if self.waiting.is_full() {
            program(&mut self.memory, self.programmed, &self.waiting);
            self.programmed += PAGE;
            self.waiting.clear();
        }
        Ok(())
    }

    fn settle(&mut self) {
        program(&mut self.memory, self.programmed, &self.waiting);
        self.programmed += self.waiting.len();
        self.waiting.clear();
    }

    // A match: a closure of `map_err` is proved alone, and nothing says there that no mount is refused.
    fn cut(self) -> Result<PageChip<M>, PageChip<M>> {
        let PageChip {
            memory,
            programmed,
            waiting,
        } = self;
        match PageChip::mount(memory) {
            Ok(chip) => Ok(chip),
            Err(Unmounted { memory, refusal: _ }) => Err(PageChip {
                memory,
                programmed,
                waiting,
            }),
        }
    }
}
