// A kind of work that is chosen when the program runs.
ghost use Rattle.listing.specs.Kinds.{chosen_kind};
ghost use Rattle.listing.specs.Chosen.{NamesWork};
ghost use Rattle.listing.specs.ChosenLaws.{chosen_lawful};

use commands::commands::Commands;
use std::str::FromStr;
use thiserror::Error;
use work::fault::BodyFault;
use work::kind::Work;
use work::name::Name;
use work::values::Values;

// Its methods choose, one by one, since no function may make the chosen kind a dyn value and hand it out.
#[derive(Clone, Copy, PartialEq, Eq, Debug)]
pub enum Chosen {
    Values,
    Commands,
}

// A text that names no kind of work.
#[derive(Clone, Copy, PartialEq, Eq, Debug, Error)]
#[error("no kind of work: values or commands")]
pub struct UnknownWork;

impl FromStr for Chosen {
    type Err = UnknownWork;

    ghost from_str_gives = { NamesWork };

    fn from_str(text: &str) -> Result<Chosen, UnknownWork> {
        match text {
            "values" => Ok(Chosen::Values),
            "commands" => Ok(Chosen::Commands),
            _ => Err(UnknownWork),
        }
    }
}

impl Work for Chosen {
    ghost kind = { chosen_kind };

    ghost lawful = { λ s. chosen_lawful s };

    fn judge(&self, body: &[u32], cells: u32) -> Result<(), BodyFault> {
        match self {
            Chosen::Values => Values.judge(body, cells),
            Chosen::Commands => Commands.judge(body, cells),
        }
    }

    fn name(&self, body: &[u32], index: usize) -> Option<Name> {
        match self {
            Chosen::Values => Values.name(body, index),
            Chosen::Commands => Commands.name(body, index),
        }
    }

    fn run(&self, body: &[u32], table: &mut [u32]) {
        match self {
            Chosen::Values => Values.run(body, table),
            Chosen::Commands => Commands.run(body, table),
        }
    }
}
