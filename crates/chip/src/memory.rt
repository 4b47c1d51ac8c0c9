// A memory of 32-bit words, seen only through loads and stores of single words.
ghost use Rattle.std.specs.Prelude.{◌≡◌, ℕ, List, [], ◌∷◌, ◌++◌, length, slice_index_or, slice_set};
ghost use Rattle.chip.specs.Stores.{Stores};

pub trait Memory {
    // The words, from place 0 on.
    ghost holds: { Self → List ℕ };

    // `through a moments b`: between `a` and `b` it held each of `moments`, in this order, one for each store.
    ghost through: { Self → List (List ℕ) → Self → Type 0 };

    fn len(&self) -> usize
        ensures { result ≡ length (holds self.now) };

    // The word at a place; all ones behind the end.
    fn load(&self, place: usize) -> u32
        ensures { result ≡ slice_index_or (holds self.now) place 4294967295 };

    // Stores one word; behind the end nothing changes.
    fn store(&mut self, place: usize, word: u32)
        ensures held { holds self.new ≡ slice_set (holds self.old) place word }
        ensures moment { through self.old (holds self.new ∷ []) self.new };

    ghost rests: { (m : Self) → through m [] m };

    ghost joins: { (a b c : Self) (xs ys : List (List ℕ)) → through a xs b → through b ys c → through a (xs ++ ys) c };

    // From each moment to the next one word was stored, and the last moment is what it holds at the end.
    ghost single: { (a b : Self) (xs : List (List ℕ)) → through a xs b → Stores (holds a) xs (holds b) };
}
