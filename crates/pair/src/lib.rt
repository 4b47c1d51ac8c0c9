// A chip made of chips: a pair of any two, one behind the other.
//
//     let mut both = Pair::new(first, second)?;
//     both.append(0x30)?;
//
// A pair is a chip itself, so pairs of pairs are chips too.
#![tactic(auto)]

pub mod pair;
