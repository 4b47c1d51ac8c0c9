// A word memory in RAM.
ghost use Rattle.std.specs.Prelude.{◌≡◌, ℕ};
ghost use Rattle.chip.specs.Stores.{Stores};
ghost use Rattle.chip.specs.StoreLaws.{stores_joined};
ghost use Rattle.std.proofs.Common.{rules};

use crate::memory::Memory;

#[derive(Drop)]
pub struct Ram {
    words: Vec<u32>,
}

impl Ram {
    pub fn new(words: Vec<u32>) -> Ram
        ensures { result.words ≡ words }
    {
        Ram { words }
    }

    pub fn into_words(self) -> Vec<u32>
        ensures { result ≡ self.words }
    {
        let Ram { words } = self;
        words
    }
}

impl Memory for Ram {
    ghost holds = { λ m. m.words.items };

    ghost through = { λ a xs b. Stores a.words.items xs b.words.items };

    ghost rests = { Prim.search rules };

    ghost joins = { λ a b c xs ys here more. stores_joined xs ys _ _ _ here more };

    ghost single = { Prim.search rules };

    fn len(&self) -> usize {
        self.words.len()
    }

    fn load(&self, place: usize) -> u32 {
        self.words.get(place).copied().unwrap_or(u32::MAX)
    }

    fn store(&mut self, place: usize, word: u32) {
        if let Some(held) = self.words.get_mut(place) {
            *held = word;
        }
    }
}
