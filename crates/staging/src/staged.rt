// Chips over traced memories: what a mount finds if the power goes inside a call.
ghost use Rattle.std.specs.Prelude.{◌≡◌, ℕ, min, Bool, List, [], ◌∷◌, ◌++◌, map, length, take, drop, is_ok, IfOk, MatchResult, vec_items, OnOk, slice_index_or};
ghost use Rattle.chip.specs.Count.{count_words, count_sound};
ghost use Rattle.chip.specs.Page.{page_found, page_sound};
ghost use Rattle.chip.specs.declared.refusal.Refusal.TheVariants.{UnfitMemory};
ghost use Rattle.either.specs.Either.{either};
ghost use Rattle.staging.specs.Below.{held_words, noted_stores, rewound_all};
ghost use Rattle.staging.specs.declared.traced.Traced.{Traced as TracedMemories};

use crate::fault::StageFault;
use crate::traced::Traced;
use chip::chip::Chip;
use chip::count::CountChip;
use chip::page::PageChip;
use chip::refusal::Unmounted;
use either::{Either, for_both, map_both};
use pair::pair::{Pair, Unpaired};
use std::alloc::Global;

pub trait Staged: Chip {
    // The memories below it, from the first to the last.
    ghost below: { Self → List TracedMemories };

    // The words that a mount of a chip of this shape finds on such memories.
    ghost finds: { Self → List (List ℕ) → List ℕ };

    // How many memories are below it.
    fn memories(&self) -> usize
        ensures { result ≡ min 18446744073709551615 (length (below self.now)) };

    // Adds the number of stores that each memory has noted, from the first memory to the last.
    fn note_stores(&self, out: &mut Vec<usize>) -> Result<(), StageFault>
        ensures { OnOk result (out.new.items ≡ out.old.items ++ map noted_stores (below self.now)) };

    // Adds what each memory holds.
    fn copy_images(&self, heap: Global, out: &mut Vec<Vec<u32>>) -> Result<(), StageFault>
        ensures { OnOk result (map vec_items out.new.items ≡ map vec_items out.old.items ++ map held_words (below self.now)) };

    // A chip of this shape, mounted on what each memory held after as many stores as `counts` says; a memory
    // behind the end of `counts` as it is now.
    fn remounted(&self, heap: Global, counts: &[usize]) -> Result<Self, StageFault>
        ensures { IfOk result (λ c. (Self.Chip.accepted c ≡ finds self.now (rewound_all (below self.now) counts.now)) × (Self.Chip.settled c ≡ length (Self.Chip.accepted c))) };

    // Lets go of the chip, which a generic function cannot do otherwise.
    fn discard(self);
}

// A chip over one traced memory.
pub trait Leaf: Chip {
    // The memory below it.
    ghost under: { Self → TracedMemories };

    // Whether a mount of such a chip accepts what a memory holds.
    ghost sound: { List ℕ → Bool };

    // The words that it finds then.
    ghost found: { List ℕ → List ℕ };

    fn on(memory: Traced) -> Result<Self, Unmounted<Traced>>
        ensures sound { is_ok result ≡ sound (held_words memory) }
        ensures chip { MatchResult result (λ c. (under c ≡ memory) × (Self.Chip.accepted c ≡ found (held_words memory)) × (Self.Chip.settled c ≡ length (Self.Chip.accepted c))) (λ e. (e.memory ≡ memory) × (e.refusal ≡ UnfitMemory)) };

    fn memory(&self) -> &Traced
        ensures { result.now ≡ under self.now };

    fn into_memory(self) -> Traced
        ensures { result ≡ under self };
}

impl Leaf for PageChip<Traced> {
    ghost under = { λ s. s.memory };

    ghost sound = { page_sound };

    ghost found = { page_found };

    fn on(memory: Traced) -> Result<PageChip<Traced>, Unmounted<Traced>> {
        PageChip::mount(memory)
    }

    fn memory(&self) -> &Traced {
        PageChip::memory(self)
    }

    fn into_memory(self) -> Traced {
        PageChip::into_memory(self)
    }
}

impl Leaf for CountChip<Traced> {
    ghost under = { λ s. s.memory };

    ghost sound = { count_sound };

    ghost found = { count_words };

    fn on(memory: Traced) -> Result<CountChip<Traced>, Unmounted<Traced>> {
        CountChip::mount(memory)
    }

    fn memory(&self) -> &Traced {
        CountChip::memory(self)
    }

    fn into_memory(self) -> Traced {
        CountChip::into_memory(self)
    }
}

impl<C: Leaf> Staged for C {
    ghost below = { λ s. C.Leaf.under s ∷ [] };

    ghost finds = { λ _ ws. C.Leaf.found (slice_index_or ws 0 []) };

    fn memories(&self) -> usize {
        1
    }

    fn note_stores(&self, out: &mut Vec<usize>) -> Result<(), StageFault> {
        out.push(self.memory().stores())?;
        Ok(())
    }

    fn copy_images(&self, heap: Global, out: &mut Vec<Vec<u32>>) -> Result<(), StageFault> {
        out.push(Vec::from_slice(heap, self.memory().words())?)?;
        Ok(())
    }

    fn remounted(&self, heap: Global, counts: &[usize]) -> Result<C, StageFault> {
        let memory = self.memory();
        let stores = counts.first().copied().unwrap_or(memory.stores());
        let before = Traced::new(heap, memory.after(heap, stores)?);
        Ok(C::on(before)?)
    }

    fn discard(self) {
        let _ = self.into_memory();
    }
}

impl<A: Staged, B: Staged> Staged for Pair<A, B> {
    ghost below = { λ s. A.Staged.below s.first ++ B.Staged.below s.second };

    ghost finds = { λ s ws. A.Staged.finds s.first (take (length (A.Staged.below s.first)) ws) ++ B.Staged.finds s.second (drop (length (A.Staged.below s.first)) ws) };

    fn memories(&self) -> usize {
        self.first()
            .memories()
            .saturating_add(self.second().memories())
    }

    fn note_stores(&self, out: &mut Vec<usize>) -> Result<(), StageFault> {
        self.first().note_stores(out)?;
        self.second().note_stores(out)
    }

    fn copy_images(&self, heap: Global, out: &mut Vec<Vec<u32>>) -> Result<(), StageFault> {
        self.first().copy_images(heap, out)?;
        self.second().copy_images(heap, out)
    }

    fn remounted(&self, heap: Global, counts: &[usize]) -> Result<Pair<A, B>, StageFault> {
        let mid = self.first().memories().min(counts.len());
        let (before, behind) = counts.split_at(mid);
        let first = self.first().remounted(heap, before)?;
        let second = match self.second().remounted(heap, behind) {
            Ok(second) => second,
            Err(fault) => {
                first.discard();
                return Err(fault);
            }
        };
        match Pair::new(first, second) {
            Ok(pair) => Ok(pair),
            Err(
                Unpaired {
                    first,
                    second,
                    refusal,
                },
            ) => {
                first.discard();
                second.discard();
                Err(StageFault::Refused(refusal))
            }
        }
    }

    fn discard(self) {
        let (first, second) = self.into_parts();
        first.discard();
        second.discard();
    }
}

impl<A: Staged, B: Staged> Staged for Either<A, B> {
    ghost below = { either A.Staged.below B.Staged.below };

    ghost finds = { either A.Staged.finds B.Staged.finds };

    fn memories(&self) -> usize {
        for_both!(self, chip => chip.memories())
    }

    fn note_stores(&self, out: &mut Vec<usize>) -> Result<(), StageFault> {
        for_both!(self, chip => chip.note_stores(out))
    }

    fn copy_images(&self, heap: Global, out: &mut Vec<Vec<u32>>) -> Result<(), StageFault> {
        for_both!(self, chip => chip.copy_images(heap, out))
    }

    fn remounted(&self, heap: Global, counts: &[usize]) -> Result<Either<A, B>, StageFault> {
        Ok(map_both!(self, chip => chip.remounted(heap, counts)?))
    }

    fn discard(self) {
        for_both!(self, chip => chip.discard())
    }
}
