// A third kind of work, to show that the trait is open: a body is one cell, which becomes 0.
ghost use Rattle.cases.specs.Clears.{clears};
ghost use Rattle.cases.specs.ClearsLaws.{clears_lawful};

use work::fault::BodyFault;
use work::kind::Work;
use work::name::Name;
use work::table::{payloads_fit, store, value};

#[derive(Clone, Copy)]
pub struct Clears;

impl Work for Clears {
    ghost kind = { λ _. clears };

    ghost lawful = { λ _. clears_lawful };

    fn judge(&self, body: &[u32], cells: u32) -> Result<(), BodyFault> {
        if body.len() != 1 || !payloads_fit(body) {
            Err(BodyFault::Length)
        } else if value(body, 0) >= cells {
            Err(BodyFault::NoSuchCell)
        } else {
            Ok(())
        }
    }

    fn name(&self, body: &[u32], index: usize) -> Option<Name> {
        (index == 0).then_some(Name::writing(value(body, 0)))
    }

    fn run(&self, body: &[u32], table: &mut [u32]) {
        store(table, value(body, 0), 0);
    }
}
