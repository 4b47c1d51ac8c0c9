// A table of readings, read and written at any cell, and what every body's payloads keep to.
ghost use Rattle.std.specs.Prelude.{◌≡◌, slice_index, slice_set};
ghost use Rattle.work.specs.Kinds.{fit_payloads};

use vector::format::PAYLOADS;

// The value of a cell; 0 behind the end.
pub fn value(table: &[u32], cell: u32) -> u32
    ensures { result ≡ slice_index table.now cell }
{
    table.get(cell as usize).copied().unwrap_or(0)
}

// Gives a cell its value; behind the end nothing changes.
// By an index; tried by `get_mut`: of a slice behind it a proof knows the length, and no element.
pub fn store(table: &mut [u32], cell: u32, value: u32)
    ensures { table.new ≡ slice_set table.old cell value }
{
    let cell = cell as usize;
    if cell < table.len() {
        table[cell] = value;
    }
}

// Whether each payload has at most 29 bits.
pub fn payloads_fit(body: &[u32]) -> bool
    ensures { result ≡ fit_payloads body.now }
{
    body.iter().all(|payload| *payload < PAYLOADS)
}
