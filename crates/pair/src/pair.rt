// Two chips as one: words go to the second once the first is full and settled.
ghost use Rattle.std.specs.Prelude.{◌≡◌, ℕ, ◌+◌, ◌≤◌, Bool, true, List, [], ◌++◌, length, is_ok, IfOk, Some, None, MatchResult};
ghost use Rattle.chip.specs.Calls.{append_answer, append_leaves, Moments};
ghost use Rattle.pair.specs.Pair.{pair_refusal, pair_early, PairOrdered, PairPasses};
ghost use Rattle.pair.specs.PairLaws.{pair_bounded, pair_keeps};
ghost use Rattle.pair.specs.Pair.PairPasses.{still};
ghost use Rattle.pair.specs.PairMoments.{pair_joined, pair_gapless};

use chip::chip::Chip;
use chip::refusal::Refusal;
use chip::words::{BLANK, MOST};

pub struct Pair<A: Chip, B: Chip> {
    first: A,
    second: B,
    ghost ordered: { PairOrdered (A.Chip.room first) (B.Chip.room second) (length (A.Chip.accepted first)) (length (B.Chip.accepted second)) (A.Chip.settled first) },
}

// Two chips that were refused as a pair.
pub struct Unpaired<A, B> {
    pub first: A,
    pub second: B,
    pub refusal: Refusal,
}

// The second chip's first word. It asks that the first is full and settled by now: nothing may be found on the second
// before all of the first is.
fn append_behind<A: Chip, B: Chip>(first: &A, second: &mut B, word: u32) -> Result<(), Refusal>
    requires settled { A.Chip.settled first.now ≡ length (A.Chip.accepted first.now) }
    requires full { length (A.Chip.accepted first.now) ≡ A.Chip.room first.now }
    ensures answer { result ≡ append_answer (B.Chip.room second.old) (B.Chip.accepted second.old) word }
    ensures words { B.Chip.accepted second.new ≡ append_leaves (B.Chip.room second.old) (B.Chip.accepted second.old) word }
    ensures same_room { B.Chip.room second.new ≡ B.Chip.room second.old }
    ensures free_settled { B.Chip.settled second.old ≤ B.Chip.settled second.new }
    ensures settles_early { is_ok result ≡ true → B.Chip.settled second.new ≡ B.Chip.early second.old }
    ensures cut_inside { Moments B.Chip.passes second.old second.new (B.Chip.accepted second.new) (B.Chip.settled second.old) }
{
    second.append(word)
}

impl<A: Chip, B: Chip> Pair<A, B> {
    // Settles the first chip and puts the second behind it; two that do not fit are handed back.
    pub fn new(mut first: A, second: B) -> Result<Pair<A, B>, Unpaired<A, B>>
        ensures made { MatchResult result (λ _. pair_refusal (A.Chip.room first) (B.Chip.room second) (length (A.Chip.accepted first)) (length (B.Chip.accepted second)) ≡ None) (λ e. pair_refusal (A.Chip.room first) (B.Chip.room second) (length (A.Chip.accepted first)) (length (B.Chip.accepted second)) ≡ Some e.refusal) }
        ensures first_settled { MatchResult result (λ p. (A.Chip.accepted p.first ≡ A.Chip.accepted first) × (A.Chip.settled p.first ≡ length (A.Chip.accepted first)) × (A.Chip.room p.first ≡ A.Chip.room first)) (λ e. e.first ≡ first) }
        ensures same_second { MatchResult result (λ p. p.second ≡ second) (λ e. e.second ≡ second) }
        ensures cut_inside { IfOk result (λ p. Moments A.Chip.passes first p.first (A.Chip.accepted first) (A.Chip.settled first)) }
    {
        if first.capacity() as usize + second.capacity() as usize > MOST {
            return Err(Unpaired {
                first,
                second,
                refusal: Refusal::PairTooLarge,
            });
        }
        if first.count() < first.capacity() && second.count() > 0 {
            return Err(Unpaired {
                first,
                second,
                refusal: Refusal::FirstNotFull,
            });
        }
        first.settle();
        Ok(Pair { first, second })
    }

    pub fn first(&self) -> &A
        ensures { result.now ≡ self.now.first }
    {
        &self.first
    }

    pub fn second(&self) -> &B
        ensures { result.now ≡ self.now.second }
    {
        &self.second
    }

    pub fn into_parts(self) -> (A, B)
        ensures { (result.0 ≡ self.first) × (result.1 ≡ self.second) }
    {
        let Pair { first, second } = self;
        (first, second)
    }
}

impl<A: Chip, B: Chip> Chip for Pair<A, B> {
    ghost accepted = { λ s. A.Chip.accepted s.first ++ B.Chip.accepted s.second };

    ghost settled = { λ s. A.Chip.settled s.first + B.Chip.settled s.second };

    ghost room = { λ s. A.Chip.room s.first + B.Chip.room s.second };

    ghost early = { λ s. pair_early (A.Chip.room s.first) (length (A.Chip.accepted s.first)) (length (B.Chip.accepted s.second)) (A.Chip.settled s.first) (B.Chip.settled s.second) (A.Chip.early s.first) (B.Chip.early s.second) };

    ghost left = { λ s. A.Chip.left s.first ++ B.Chip.left s.second };

    ghost passes = { λ s ls t. PairPasses A.Chip.passes B.Chip.passes A.Chip.room A.Chip.left B.Chip.left s.first s.second ls t.first t.second };

    ghost bounded = { λ s.
        let first = A.Chip.bounded s.first in
        let second = B.Chip.bounded s.second in
        pair_bounded (A.Chip.accepted s.first) (B.Chip.accepted s.second) (A.Chip.room s.first) (B.Chip.room s.second) (A.Chip.settled s.first) (B.Chip.settled s.second) first.0 first.1 second.0 second.1 s.ordered };

    ghost keeps = { λ s. pair_keeps (A.Chip.accepted s.first) (B.Chip.accepted s.second) (A.Chip.room s.first) (B.Chip.room s.second) (A.Chip.settled s.first) (B.Chip.settled s.second) (A.Chip.left s.first) (B.Chip.left s.second) (A.Chip.keeps s.first) (B.Chip.keeps s.second) s.ordered };

    ghost rests = { λ s. still };

    ghost joins = { λ a b c xs ys here more. pair_joined A.Chip.passes B.Chip.passes A.Chip.room A.Chip.left B.Chip.left here c.first c.second ys more };

    ghost gapless = { λ a b xs here. pair_gapless A.Chip.passes B.Chip.passes A.Chip.room A.Chip.left B.Chip.left A.Chip.gapless B.Chip.gapless here };

    fn capacity(&self) -> u32 {
        self.first.capacity() + self.second.capacity()
    }

    fn count(&self) -> u32 {
        self.first.count() + self.second.count()
    }

    fn read_word(&self, place: u32) -> Result<u32, Refusal> {
        if place >= self.count() {
            return Err(Refusal::NoSuchWord);
        }
        let first = self.first.count();
        if place < first {
            self.first.read_word(place)
        } else {
            self.second.read_word(place - first)
        }
    }

    fn append(&mut self, word: u32) -> Result<(), Refusal> {
        if word == BLANK {
            return Err(Refusal::BlankWord);
        }
        if self.count() >= self.capacity() {
            return Err(Refusal::ChipFull);
        }
        if self.second.count() > 0 {
            return self.second.append(word);
        }
        if self.first.count() < self.first.capacity() {
            return self.first.append(word);
        }
        self.first.settle(); // or a cut could leave words on the second and too few on the first
        append_behind(&self.first, &mut self.second, word)
    }

    fn settle(&mut self) {
        self.first.settle();
        self.second.settle();
    }

    // Matches: a closure of `map_err` is proved alone, and nothing says there that no chip is refused.
    fn cut(self) -> Result<Pair<A, B>, Pair<A, B>> {
        let Pair { first, second } = self;
        let first = match first.cut() {
            Ok(first) => first,
            Err(first) => return Err(Pair { first, second }),
        };
        let second = match second.cut() {
            Ok(second) => second,
            Err(second) => return Err(Pair { first, second }),
        };
        match Pair::new(first, second) {
            Ok(pair) => Ok(pair),
            Err(
                Unpaired {
                    first,
                    second,
                    refusal: _,
                },
            ) => Err(Pair { first, second }),
        }
    }
}
