// A chip: a log of words that grows at its end and keeps what it has settled when the power goes.
ghost use Rattle.std.specs.Prelude.{◌≡◌, ℕ, ◌≤◌, true, false, List, [], ◌++◌, length, is_ok, MatchResult};
ghost use Rattle.chip.specs.Cut.{Kept, Gapless};
ghost use Rattle.chip.specs.Calls.{append_answer, append_leaves, read_answer, Moments};

use crate::refusal::Refusal;

pub trait Chip: Sized {
    // The words that were appended, in order.
    ghost accepted: { Self → List ℕ };

    // How many of them no power cut can lose.
    ghost settled: { Self → ℕ };

    // How many words it can hold.
    ghost room: { Self → ℕ };

    // How many are settled after the next Append, if that is accepted. This is free: each kind of chip says it.
    ghost early: { Self → ℕ };

    // The words that a mount finds if the power goes now.
    ghost left: { Self → List ℕ };

    // `passes s moments t`: between `s` and `t` a mount would have found each of `moments`, in this order,
    // one for each step.
    ghost passes: { Self → List (List ℕ) → Self → Type 0 };

    fn capacity(&self) -> u32
        ensures { result ≡ room self.now };

    fn count(&self) -> u32
        ensures { result ≡ length (accepted self.now) };

    fn read_word(&self, place: u32) -> Result<u32, Refusal>
        ensures { result ≡ read_answer (accepted self.now) place };

    // Puts a word at the end. How many words are then settled is free: never fewer than before, and by the law
    // `bounded` never more than are accepted.
    fn append(&mut self, word: u32) -> Result<(), Refusal>
        ensures answer { result ≡ append_answer (room self.old) (accepted self.old) word }
        ensures words { accepted self.new ≡ append_leaves (room self.old) (accepted self.old) word }
        ensures same_room { room self.new ≡ room self.old }
        ensures free_settled { settled self.old ≤ settled self.new }
        ensures settles_early { is_ok result ≡ true → settled self.new ≡ early self.old }
        ensures refusal_changes_nothing { is_ok result ≡ false → self.new ≡ self.old }
        ensures cut_inside { Moments passes self.old self.new (accepted self.new) (settled self.old) };

    // Settles all words.
    fn settle(&mut self)
        ensures words { accepted self.new ≡ accepted self.old }
        ensures same_room { room self.new ≡ room self.old }
        ensures all_settled { settled self.new ≡ length (accepted self.old) }
        ensures cut_inside { Moments passes self.old self.new (accepted self.old) (settled self.old) };

    // The power goes between two calls and comes back: the chip is mounted on what it left. A `Result`, since a mount gives
    // one; no chip is refused.
    fn cut(self) -> Result<Self, Self>
        ensures { MatchResult result (λ c. (accepted c ≡ left self) × (settled c ≡ length (left self)) × (room c ≡ room self)) (λ _. ⊥) };

    ghost bounded: { (s : Self) → (settled s ≤ length (accepted s)) × (length (accepted s) ≤ room s) × (room s ≤ 1048576) };

    // The cut rule between two calls.
    ghost keeps: { (s : Self) → Kept (accepted s) (settled s) (left s) };

    // No step passes no moment.
    ghost rests: { (s : Self) → passes s [] s };

    // Moments join.
    ghost joins: { (a b c : Self) (xs ys : List (List ℕ)) → passes a xs b → passes b ys c → passes a (xs ++ ys) c };

    // From one moment to the next a mount finds the same words or one more, so no moment can be left out.
    ghost gapless: { (a b : Self) (xs : List (List ℕ)) → passes a xs b → Gapless (left a) xs (left b) };
}
