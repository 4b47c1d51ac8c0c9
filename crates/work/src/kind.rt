// A kind of work: the bodies that it takes, the cells that they read and write, and how they change a table.
ghost use Rattle.std.specs.Prelude.{◌≡◌};
ghost use Rattle.work.specs.Kinds.{Kind, Lawful, nth};

use crate::fault::BodyFault;
use crate::name::Name;

pub trait Work {
    // The fault of a body at a number of cells, the cells that it names, and its effect on a table.
    ghost kind: { Self → Kind };

    fn judge(&self, body: &[u32], cells: u32) -> Result<(), BodyFault>
        ensures { result ≡ (kind self.now).judged body.now cells };

    // The named cell at an index, counted from 0 in rising number; none behind the last.
    // By index, since there is no heap, and a body that is not well formed can name any number of cells.
    fn name(&self, body: &[u32], index: usize) -> Option<Name>
        ensures { result ≡ nth ((kind self.now).names body.now) index };

    fn run(&self, body: &[u32], table: &mut [u32])
        ensures { table.new ≡ (kind self.now).effect body.now table.old };

    // What every kind of work has to keep.
    ghost lawful: { (s : Self) → Lawful (kind s) };
}
