// What a kind of work says of a body alone.
ghost use Rattle.std.specs.Prelude.{◌≡◌, IfOk};
ghost use Rattle.listing.specs.Judgements.{Judges};
ghost use Rattle.listing.specs.Kinds.{chosen_kind};

use crate::chosen::Chosen;
use std::alloc::{AllocError, Global};
use work::fault::BodyFault;
use work::kind::Work;
use work::name::Name;

// The cells that a body names, in rising number, or its fault.
pub type Judgement = Result<Vec<Name>, BodyFault>;

pub fn judged(heap: Global, kind: Chosen, cells: u32, body: &[u32]) -> Result<Judgement, AllocError>
    ensures { IfOk result (Judges (chosen_kind kind) cells body.now) }
{
    match kind.judge(body, cells) {
        Ok(()) => Ok(Ok(names(heap, kind, body)?)),
        Err(fault) => Ok(Err(fault)),
    }
}

// The cells that a body names.
#[tactic(auto, using(crate::proofs::NameLaws::one_more, crate::proofs::NameLaws::no_more))]
fn names(heap: Global, kind: Chosen, body: &[u32]) -> Result<Vec<Name>, AllocError>
    ensures { IfOk result (λ v. v.items ≡ (chosen_kind kind).names body.now) }
{
    let mut names = Vec::new(heap);
    while let Some(name) = kind.name(body, names.len()) {
        names.push(name)?;
    }
    Ok(names)
}

#[cfg(test)]
mod tests {
    use super::judged;
    use crate::chosen::{Chosen, UnknownWork};
    use std::test::Fail;
    use work::fault::BodyFault;
    use work::name::Name;

    #[test]
    fn a_body_is_judged_by_the_kind_of_a_name(rt: HostRuntime) -> Result<(), Fail> {
        let values: Chosen = "values".parse()?;
        let names = judged(rt.alloc(), values, 16, &[8, 5, 9, 7])??;
        assert_eq!(rt; names.len(), 2);
        assert_eq!(rt;
            names[1],
            Name {
                cell: 9,
                writes: true
            }
        );
        let commands: Chosen = "commands".parse()?;
        let fault = judged(rt.alloc(), commands, 16, &[8, 5, 9, 7])?.err();
        assert_eq!(rt; fault, Some(BodyFault::Length));
        assert_eq!(rt; "value".parse::<Chosen>(), Err(UnknownWork));
        Ok(())
    }
}
