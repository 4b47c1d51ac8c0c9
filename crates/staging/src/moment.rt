// Where the stores of a call stand among those of a chip's memories. A chip stores to its memories from the
// first to the last, so the first stores of a call are those to the first memories.
ghost use Rattle.std.specs.Prelude.{◌≡◌, min, IfOk};
ghost use Rattle.staging.specs.Spread.{made_by, counts_after};

use std::alloc::{AllocError, Global};

// How many stores each memory has noted after `stores` stores of a call, when it had noted `before` at its
// start and `after` at its end. They are two lists and no list of pairs, since a chip notes them at two moments.
pub fn counts_at(
    heap: Global,
    before: &[usize],
    after: &[usize],
    stores: usize,
) -> Result<Vec<usize>, AllocError>
    ensures { IfOk result (λ v. v.items ≡ counts_after before.now after.now stores) }
{
    let mut counts = Vec::new(heap);
    let mut left = stores;
    for (start, end) in before.iter().zip(after) {
        let here = end.saturating_sub(*start).min(left);
        counts.push(start + here)?;
        left -= here;
    }
    Ok(counts)
}

// How many stores a call made.
pub fn stores_between(before: &[usize], after: &[usize]) -> usize
    ensures { result ≡ min 18446744073709551615 (made_by before.now after.now) }
{
    let mut sum = 0usize;
    for (start, end) in before.iter().zip(after) {
        sum = sum.saturating_add(end.saturating_sub(*start));
    }
    sum
}

#[cfg(test)]
mod tests {
    use super::*;
    use std::test::Fail;

    #[test]
    fn stores_go_to_the_first_memories_first(rt: HostRuntime) -> Result<(), Fail> {
        let heap = rt.alloc();
        assert_eq!(rt; stores_between(&[3, 0], &[5, 4]), 6);
        assert_eq!(rt; counts_at(heap, &[3, 0], &[5, 4], 3)?, vec![in heap; 5, 1]?);
        Ok(())
    }
}
