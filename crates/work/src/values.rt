// Values: a body sets cells, each pair of payloads a cell and the value that it gets.
ghost use Rattle.std.specs.Prelude.{◌≡◌};
ghost use Rattle.work.specs.Kinds.{within, rising};
ghost use Rattle.work.specs.Values.{values, values_names, pairs_of, pairs_fit};
ghost use Rattle.work.specs.ValuesLaws.{values_lawful};

use crate::fault::BodyFault;
use crate::kind::Work;
use crate::name::Name;
use crate::table::{payloads_fit, store};
use vector::format::PAYLOADS_OF_A_BODY;

#[derive(Clone, Copy)]
pub struct Values;

// 1 to 8 pairs and nothing left over.
fn pairs_fit(count: usize) -> bool
    ensures { result ≡ pairs_fit count }
{
    count > 0 && count <= PAYLOADS_OF_A_BODY && count % 2 == 0
}

fn pairs(body: &[u32]) -> &[[u32; 2]]
    ensures { result.now ≡ pairs_of body.now }
{
    body.as_chunks().0
}

fn cells_are_there(body: &[u32], cells: u32) -> bool
    ensures { result ≡ within cells (values_names body.now) }
{
    pairs(body).iter().all(|[cell, _]| *cell < cells)
}

fn cells_rise(body: &[u32]) -> bool
    ensures { result ≡ rising (values_names body.now) }
{
    pairs(body).is_sorted_by(|[low, _], [high, _]| low < high)
}

impl Work for Values {
    ghost kind = { λ _. values };

    ghost lawful = { λ _. values_lawful };

    fn judge(&self, body: &[u32], cells: u32) -> Result<(), BodyFault> {
        if !pairs_fit(body.len()) || !payloads_fit(body) {
            return Err(BodyFault::Length);
        }
        if !cells_are_there(body, cells) {
            return Err(BodyFault::NoSuchCell);
        }
        if !cells_rise(body) {
            return Err(BodyFault::CellOrder);
        }
        Ok(())
    }

    fn name(&self, body: &[u32], index: usize) -> Option<Name> {
        let [cell, _] = pairs(body).get(index)?;
        Some(Name::writing(*cell))
    }

    fn run(&self, body: &[u32], table: &mut [u32]) {
        for [cell, value] in pairs(body) {
            store(table, *cell, *value);
        }
    }
}
