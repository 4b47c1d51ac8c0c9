// Commands: a body is three payloads, an operation with its sender and number, cells, and an amount.
ghost use Rattle.std.specs.Prelude.{◌≡◌, [], ◌∷◌};
ghost use Rattle.work.specs.Kinds.{nth};
ghost use Rattle.commands.specs.Commands.{commands, fields, fit_fields, body_of, FieldsGivenBack, above_latest, command_effect, acted, unused_are_zero, usable, cells_there, cells_apart, placed, OnceOnly};
ghost use Rattle.commands.specs.CommandLaws.{commands_lawful};

use crate::operation::Operation;
use vector::format::PAYLOADS;
use work::fault::BodyFault;
use work::kind::Work;
use work::limits::TOP;
use work::name::Name;
use work::table::{payloads_fit, store, value};

// Part of the format. The first payload has the number in its low 23 bits, the sender in the three above, then the operation.
pub const OPERATION_STEP: u32 = 0x0400_0000;

pub const SENDER_STEP: u32 = 0x0080_0000;

// Part of the format. The second payload has a byte for each of the cells a, b and c from its low end on, and nothing above.
pub const B_STEP: u32 = 0x100;

pub const C_STEP: u32 = 0x1_0000;

pub const SPARE_STEP: u32 = 0x100_0000;

// How many senders there are: the cells below this one are theirs.
pub const SENDERS: u32 = 8;

// The fields of a body.
#[derive(Clone, Copy, PartialEq, Eq, Debug, Default)]
pub struct Command {
    // any three bits: a body has fields whatever they say, and `Operation::try_from` reads them
    pub operation: u32,
    pub sender: u32,
    pub number: u32,
    pub a: u32,
    pub b: u32,
    pub c: u32,
    // the second payload's bits above the cells
    pub spare: u32,
    pub amount: u32,
}

#[derive(Clone, Copy)]
pub struct Commands;

// `of` and `body` are no From and TryFrom: a body of any length has fields, and of fields that do not fit no error says more.
impl Command {
    // The fields of a body's first three payloads; one that is missing counts as 0.
    pub fn of(body: &[u32]) -> Command
        ensures { result ≡ fields body.now }
    {
        let first = value(body, 0);
        let second = value(body, 1);
        Command {
            operation: first / OPERATION_STEP,
            sender: first / SENDER_STEP % 8,
            number: first % SENDER_STEP,
            a: second % B_STEP,
            b: second / B_STEP % 256,
            c: second / C_STEP % 256,
            spare: second / SPARE_STEP,
            amount: value(body, 2),
        }
    }

    // The three payloads that have these fields; none if a field does not fit its bits.
    pub fn body(self) -> Option<[u32; 3]>
        ensures value { result ≡ body_of self }
        ensures fields_given_back { FieldsGivenBack self result }
    {
        if self.fits() {
            Some([
                self.operation * OPERATION_STEP + self.sender * SENDER_STEP + self.number,
                self.spare * SPARE_STEP + self.c * C_STEP + self.b * B_STEP + self.a,
                self.amount,
            ])
        } else {
            None
        }
    }

    // Whether each field has no more than its bits.
    fn fits(self) -> bool
        ensures { result ≡ fit_fields self }
    {
        self.operation < 8
            && self.sender < SENDERS
            && self.number < SENDER_STEP
            && self.a < 256
            && self.b < 256
            && self.c < 256
            && self.spare < 32
            && self.amount < PAYLOADS
    }

    fn unused_are_zero(self) -> bool
        ensures { result ≡ unused_are_zero self }
    {
        self.spare == 0
            && match Operation::try_from(self.operation) {
                Ok(Operation::Add) => self.b == 0 && self.c == 0,
                Ok(Operation::Close) => self.c == 0 && self.amount == 0,
                _ => true,
            }
    }

    fn cells_are_there(self, cells: u32) -> bool
        ensures { result ≡ cells_there cells self }
    {
        usable(cells, self.a)
            && match Operation::try_from(self.operation) {
                Ok(Operation::Close) => usable(cells, self.b),
                Ok(Operation::Latch) => usable(cells, self.b) && usable(cells, self.c),
                _ => true,
            }
    }

    fn cells_are_apart(self) -> bool
        ensures { result ≡ cells_apart self }
    {
        match Operation::try_from(self.operation) {
            Ok(Operation::Close) => self.a != self.b,
            Ok(Operation::Latch) => self.a != self.b && self.a != self.c && self.b != self.c,
            _ => true,
        }
    }

    // Whether the number is above the latest of its sender.
    fn is_new(self, table: &[u32]) -> bool
        ensures { result ≡ above_latest self table.now }
    {
        value(table, self.sender) < self.number
    }

    // What the operation does, whatever its number.
    fn act(self, table: &mut [u32])
        ensures { table.new ≡ acted self table.old }
    {
        let a = value(table, self.a);
        match Operation::try_from(self.operation) {
            Ok(Operation::Add) => store(table, self.a, a.saturating_add(self.amount).min(TOP)),
            Ok(Operation::Close) => {
                store(table, self.b, a);
                store(table, self.a, 0);
            }
            Ok(Operation::Latch) => {
                if value(table, self.b) >= self.amount {
                    store(table, self.c, a);
                }
            }
            Err(_) => {}
        }
    }
}

// A cell that the table has and that is not a sender's.
fn usable(cells: u32, cell: u32) -> bool
    ensures { result ≡ usable cells cell }
{
    (SENDERS..cells).contains(&cell)
}

// Of two names that rise, the one at an index.
fn of_two(x: Name, y: Name, index: usize) -> Option<Name>
    ensures { result ≡ nth (placed x (y ∷ [])) index }
{
    match (index, x.cell < y.cell) {
        (0, true) | (1, false) => Some(x),
        (0, false) | (1, true) => Some(y),
        _ => None,
    }
}

fn of_three(x: Name, y: Name, z: Name, index: usize) -> Option<Name>
    ensures { result ≡ nth (placed x (placed y (z ∷ []))) index }
{
    let (low, high) = if y.cell < z.cell { (y, z) } else { (z, y) };
    match (index, x.cell < low.cell, x.cell < high.cell) {
        (0, true, _) | (1, false, true) | (2, false, false) => Some(x),
        (0, false, _) | (1, true, _) => Some(low),
        (1, false, false) | (2, _, _) => Some(high),
        _ => None,
    }
}

impl Work for Commands {
    ghost kind = { λ _. commands };

    ghost lawful = { λ s. commands_lawful };

    fn judge(&self, body: &[u32], cells: u32) -> Result<(), BodyFault> {
        if body.len() != 3 || !payloads_fit(body) {
            return Err(BodyFault::Length);
        }
        let command = Command::of(body);
        Operation::try_from(command.operation)?;
        if command.number == 0 {
            return Err(BodyFault::NumberZero);
        }
        if !command.unused_are_zero() {
            return Err(BodyFault::UnusedField);
        }
        if !command.cells_are_there(cells) {
            return Err(BodyFault::NoSuchCell);
        }
        if !command.cells_are_apart() {
            return Err(BodyFault::CellOrder);
        }
        Ok(())
    }

    // The sender's cell is below every cell that an operation can use, so it comes first. By comparisons and not out of a list of
    // all names, which would be made anew for each index.
    fn name(&self, body: &[u32], index: usize) -> Option<Name> {
        let command = Command::of(body);
        if index == 0 {
            return Some(Name::writing(command.sender));
        }
        match Operation::try_from(command.operation) {
            Ok(Operation::Add) if index == 1 => Some(Name::writing(command.a)),
            Ok(Operation::Close) => of_two(
                Name::writing(command.a),
                Name::writing(command.b),
                index - 1,
            ),
            Ok(Operation::Latch) => of_three(
                Name::reading(command.a),
                Name::reading(command.b),
                Name::writing(command.c),
                index - 1,
            ),
            _ => None,
        }
    }

    #[tactic(auto, using(crate::specs::CommandLaws::once_only))]
    fn run(&self, body: &[u32], table: &mut [u32])
        ensures effect { table.new ≡ command_effect (fields body.now) table.old }
        ensures once_only { OnceOnly body.now table.old }
    {
        let command = Command::of(body);
        if command.is_new(table) {
            store(table, command.sender, command.number);
            command.act(table);
        }
    }
}
