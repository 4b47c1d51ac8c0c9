// A cell that a body names.
ghost use Rattle.std.specs.Prelude.{◌≡◌};
ghost use Rattle.work.specs.Kinds.{reading, writing};

use std::fmt;

// `Default` fills the free room of a list of names.
#[derive(Clone, Copy, PartialEq, Eq, Debug, Default)]
pub struct Name {
    pub cell: u32,
    // for writing, or else only for reading
    pub writes: bool,
}

// Two constructors: at the calls of one that takes a bool it would not stand what the cell is named for.
impl Name {
    pub fn reading(cell: u32) -> Name
        ensures { result ≡ reading cell }
    {
        Name {
            cell,
            writes: false,
        }
    }

    pub fn writing(cell: u32) -> Name
        ensures { result ≡ writing cell }
    {
        Name { cell, writes: true }
    }
}

impl fmt::Display for Name {
    fn fmt<W: fmt::Write>(&self, f: &mut fmt::Formatter<W>) -> fmt::Result {
        let cell = self.cell;
        let purpose = if self.writes { "writing" } else { "reading" };
        write!(f, "{cell} for {purpose}")
    }
}
