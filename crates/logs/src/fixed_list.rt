// A list of at most N numbers while it is laid out in its array.
ghost use Rattle.std.specs.Prelude.{◌≡◌, ◌+◌, ◌<◌, [], ◌∷◌, ◌++◌, length};

use std::marker::Model;

// Beside the kit's `ArrayVec`, which doesn't hand out its array: words and bodies are arrays with a count, and 0 behind it.
#[derive(Drop)]
pub(crate) struct FixedList<const N: usize> {
    pub(crate) cells: [u32; N],
    pub(crate) len: usize,
}

impl<const N: usize> Model for FixedList<N> {
    ghost use Rattle.std.specs.Prelude.{take};
    ghost use Rattle.logs.specs.Lists.{FixedList as Items, Padded};

    ghost Value = { Items };

    ghost view = { λ list. record { items = take list.len list.cells } };

    ghost invariant = { λ list. Padded N list.cells list.len };
}

impl<const N: usize> FixedList<N> {
    pub(crate) fn new() -> FixedList<N>
        ensures { result.items ≡ [] }
    {
        FixedList {
            cells: [0; N],
            len: 0,
        }
    }

    pub(crate) fn push(&mut self, number: u32)
        requires { length self.old.items < N }
        ensures items { self.new.items ≡ self.old.items ++ number ∷ [] }
        ensures len { length self.new.items ≡ length self.old.items + 1 }
    {
        self.cells[self.len] = number;
        self.len += 1;
    }
}
