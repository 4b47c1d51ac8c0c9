// What a command does.
ghost use Rattle.std.specs.Prelude.{◌≡◌};
ghost use Rattle.commands.specs.Operations.{number_of_operation, operation_judged};

use work::fault::BodyFault;

#[derive(Clone, Copy, PartialEq, Eq, Debug)]
pub enum Operation {
    Add,
    Close,
    Latch,
}

// Part of the format: the numbers of the operations.
impl From<Operation> for u32 {
    ghost from_gives = { λ operation n. n ≡ number_of_operation operation };

    fn from(operation: Operation) -> u32 {
        match operation {
            Operation::Add => 1,
            Operation::Close => 2,
            Operation::Latch => 3,
        }
    }
}

impl TryFrom<u32> for Operation {
    type Error = BodyFault;

    ghost try_from_gives = { λ number r. r ≡ operation_judged number };

    fn try_from(number: u32) -> Result<Operation, BodyFault> {
        match number {
            1 => Ok(Operation::Add),
            2 => Ok(Operation::Close),
            3 => Ok(Operation::Latch),
            _ => Err(BodyFault::Operation),
        }
    }
}
