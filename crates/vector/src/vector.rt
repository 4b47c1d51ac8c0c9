// Vectors of log places: a place for each of eight chips. A place of a chip that a unit does not have is 0.
ghost use Rattle.std.specs.Prelude.{◌≡◌};
ghost use Rattle.vector.specs.Vectors.{joined, reached_by, LeastAbove};

use std::array;

// At each chip the larger of the two places.
pub fn join(a: [u32; 8], b: [u32; 8]) -> [u32; 8]
    ensures value { result ≡ joined a b }
    ensures least_above_both { LeastAbove a b result }
{
    array::from_fn(|chip| a[chip].max(b[chip]))
}

// Whether no place of `a` is larger than the one of `b` at the same chip.
pub fn reached(a: [u32; 8], b: [u32; 8]) -> bool
    ensures { result ≡ reached_by a b }
{
    a.iter().zip(b.iter()).all(|(x, y)| x <= y)
}
