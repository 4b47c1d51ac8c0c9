// A word memory in RAM that notes what each store replaced, so that it can show what it held after any of them.
ghost use Rattle.std.specs.Prelude.{◌≡◌, ℕ, false, [], ◌∷◌, ◌++◌, length, MatchResult, refl};
ghost use Rattle.std.proofs.Common.{sym};
ghost use Rattle.chip.specs.Stores.{Stores};
ghost use Rattle.staging.specs.Rewind.{note_of, rewound, Noted};
ghost use Rattle.staging.specs.declared.fault.StageFault.TheVariants.{Memory as NoMemory};
ghost use Rattle.std.proofs.lemmas.List.{append-nil};
ghost use Rattle.chip.specs.StoreLaws.{stores_joined};
ghost use Rattle.staging.specs.RewindLaws.{noted_joined};

use crate::fault::StageFault;
use chip::memory::Memory;
use std::alloc::Global;

// The word that stood at a place before a store.
#[derive(Clone, Copy)]
pub struct Note {
    pub place: usize,
    pub before: u32,
}

#[derive(Drop)]
pub struct Traced {
    words: Vec<u32>,
    notes: Vec<Note>,
    // A note found no memory: the stores before it cannot be undone any more. The notes that are there still count as
    // stores, so this is no `Option` of them.
    lost: bool,
}

impl Traced {
    pub fn new(heap: Global, words: Vec<u32>) -> Traced
        ensures words { result.words ≡ words }
        ensures notes { result.notes.items ≡ [] }
    {
        Traced {
            words,
            notes: Vec::new(heap),
            lost: false,
        }
    }

    pub fn words(&self) -> &[u32]
        ensures { result.now ≡ self.now.words.items }
    {
        self.words.as_slice()
    }

    // How many stores it has noted.
    pub fn stores(&self) -> usize
        ensures { result ≡ length self.now.notes.items }
    {
        self.notes.len()
    }

    fn note(&mut self, place: usize, before: u32)
        ensures words { self.new.words ≡ self.old.words }
        ensures noted { self.new.lost ≡ false → (self.old.lost ≡ false) × (self.new.notes.items ≡ self.old.notes.items ++ note_of place before ∷ []) }
    {
        if self.notes.push(Note { place, before }).is_err() {
            self.lost = true;
        }
    }

    // The words as they stood after the first `stores` of the noted stores.
    pub fn after(&self, heap: Global, stores: usize) -> Result<Vec<u32>, StageFault>
        ensures { MatchResult result (λ v. v.items ≡ rewound self.now.words.items self.now.notes.items stores) (λ e. e ≡ NoMemory) }
    {
        if self.lost {
            return Err(StageFault::Memory);
        }
        let mut words = Vec::from_slice(heap, self.words.as_slice())?;
        let undone = &self.notes[stores.min(self.notes.len())..];
        for note in undone.iter().rev() {
            if let Some(word) = words.get_mut(note.place) {
                *word = note.before;
            }
        }
        Ok(words)
    }
}

impl Memory for Traced {
    ghost holds = { λ m. m.words.items };

    // Unless a note was lost, the notes tell every moment.
    ghost through = { λ a xs b. Stores a.words.items xs b.words.items × (b.lost ≡ false → (a.lost ≡ false) × Noted a.words.items a.notes.items xs b.words.items b.notes.items) };

    ghost rests = { λ m. (refl, λ kept. (kept, ([], sym (append-nil m.notes.items), refl, refl))) };

    ghost joins = { λ a b c xs ys here more. (
      stores_joined xs ys a.words.items b.words.items c.words.items here.0 more.0,
      λ kept.
          let second = more.1 kept in
          let first = here.1 second.0 in
          (first.0, noted_joined xs ys a.words.items b.words.items c.words.items a.notes.items b.notes.items c.notes.items first.1 second.1),
    ) };

    ghost single = { λ a b xs here. here.0 };

    fn len(&self) -> usize {
        self.words.len()
    }

    fn load(&self, place: usize) -> u32 {
        self.words.get(place).copied().unwrap_or(u32::MAX)
    }

    fn store(&mut self, place: usize, word: u32) {
        let before = self.load(place);
        self.note(place, before);
        if let Some(held) = self.words.get_mut(place) {
            *held = word;
        }
    }
}

#[cfg(test)]
mod tests {
    use super::*;
    use std::test::Fail;

    #[test]
    fn stores_are_undone(rt: HostRuntime) -> Result<(), Fail> {
        let heap = rt.alloc();
        let mut memory = Traced::new(heap, vec![in heap; 7, 8]?);
        memory.store(1, 5);
        memory.store(0, 6);
        memory.store(2, 1);
        assert_eq!(rt; memory.stores(), 3);
        assert_eq!(rt; memory.after(heap, 1)?, vec![in heap; 7, 5]?);
        Ok(())
    }
}
