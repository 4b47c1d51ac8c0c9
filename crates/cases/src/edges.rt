// Tests at the edges of each field and limit.
use crate::clears::Clears;
use commands::commands::{Command, Commands};
use logs::reader::read;
use logs::record::Origin;
use logs::writer::write;
use std::test::Fail;
use work::fault::BodyFault;
use work::kind::Work;
use work::values::Values;

const NONE: [u32; 8] = [0; 8];

#[test]
fn sixteen_payloads_are_written_and_seventeen_are_not(rt: HostRuntime) {
    assert!(rt; write(NONE, &[8; 16]).is_ok());
    assert!(rt; write(NONE, &[8; 17]).is_err());
    assert!(rt; write(NONE, &[8; 1]).is_ok());
    assert!(rt; write(NONE, &[]).is_err());
}

#[test]
fn payloads_have_29_bits_and_places_26(rt: HostRuntime) {
    assert!(rt; write(NONE, &[0x1fff_ffff]).is_ok());
    assert!(rt; write(NONE, &[0x2000_0000]).is_err());
    assert!(rt; write([0x03ff_ffff; 8], &[1]).is_ok());
    assert!(rt; write([0x0400_0000, 0, 0, 0, 0, 0, 0, 0], &[1]).is_err());
}

#[test]
fn the_longest_record_has_25_words(rt: HostRuntime) -> Result<(), Fail> {
    let words = write([9; 8], &[8; 16])?;
    assert_eq!(rt; words.len(), 25);
    assert_eq!(rt; words.first(), Some(&0x108));
    assert_eq!(rt; words.get(8), Some(&0x3c00_0009));
    assert_eq!(rt; words.get(24), Some(&0x4000_0008));
    Ok(())
}

fn command(sender: u32, number: u32, a: u32, amount: u32) -> Command {
    Command {
        operation: 1,
        sender,
        number,
        a,
        b: 0,
        c: 0,
        spare: 0,
        amount,
    }
}

#[test]
fn a_command_fits_its_fields(rt: HostRuntime) {
    assert!(rt; command(7, 0x7f_ffff, 255, 0x1fff_ffff).body().is_some());
    assert!(rt; command(8, 1, 8, 0).body().is_none());
    assert!(rt; command(0, 0x80_0000, 8, 0).body().is_none());
    assert!(rt; command(0, 1, 256, 0).body().is_none());
    assert!(rt; command(0, 1, 8, 0x2000_0000).body().is_none());
}

#[test]
fn a_command_names_cells_from_8_on(rt: HostRuntime) -> Result<(), Fail> {
    let body = command(7, 0x7f_ffff, 8, 0).body().ok_or("too wide")?;
    assert!(rt; Commands.judge(&body, 9).is_ok());
    assert_eq!(rt; Commands.judge(&body, 8), Err(BodyFault::NoSuchCell));
    let body = command(7, 1, 7, 0).body().ok_or("too wide")?;
    assert_eq!(rt; Commands.judge(&body, 256), Err(BodyFault::NoSuchCell));
    Ok(())
}

#[test]
fn eight_pairs_of_values_pass(rt: HostRuntime) {
    let body = [0, 1, 1, 1, 2, 1, 3, 1, 4, 1, 5, 1, 6, 1, 7, 1];
    assert!(rt; Values.judge(&body, 8).is_ok());
    assert_eq!(rt; Values.judge(&body, 7), Err(BodyFault::NoSuchCell));
    assert_eq!(rt; Values.judge(&body[0..15], 8), Err(BodyFault::Length));
}

// The cause for which a body of values is no record there.
fn fault(origin: Origin, words: &[u32]) -> Result<u8, Fail> {
    let fault = read(&Values, 12, origin, words).err().ok_or("no fault")?;
    Ok(u8::from(fault.cause))
}

// An entry of the log's own chip may name the record's start and nothing behind it.
#[test]
fn an_own_entry_ends_at_the_start(rt: HostRuntime) -> Result<(), Fail> {
    let words = write([0, 3, 0, 0, 0, 0, 0, 0], &[8, 5])?;
    let at = Origin {
        chips: 2,
        chip: 1,
        start: 3,
    };
    let before = Origin { start: 2, ..at };
    let alone = Origin { chips: 1, ..at };
    assert!(rt; matches!(read(&Values, 12, at, &words), Ok(Some(_))));
    assert_eq!(rt; fault(before, &words)?, 6);
    assert_eq!(rt; fault(alone, &words)?, 5);
    assert!(rt; matches!(read(&Values, 12, at, &words[0..3]), Ok(None)));
    Ok(())
}

#[test]
fn a_third_kind_is_written_read_and_run(rt: HostRuntime) -> Result<(), Fail> {
    let words = write(NONE, &[2])?;
    let at = Origin {
        chips: 1,
        chip: 0,
        start: 0,
    };
    assert!(rt; matches!(read(&Clears, 3, at, &words), Ok(Some(_))));
    assert!(rt; read(&Clears, 2, at, &words).is_err());
    let mut table = [5, 6, 7];
    Clears.run(&[2], &mut table);
    assert_eq!(rt; table[2], 0);
    assert_eq!(rt; table[1], 6);
    Ok(())
}

#[test]
fn words_and_records_are_handed_on_by_value(rt: HostRuntime) -> Result<(), Fail> {
    let words = write(NONE, &[8, 5])?;
    let same_words = words;
    assert_eq!(rt; words, same_words);
    let at = Origin {
        chips: 1,
        chip: 0,
        start: 0,
    };
    let record = read(&Values, 12, at, &words)?.ok_or("no record")?;
    let same_record = record;
    assert_eq!(rt; record, same_record);
    let body = record.body;
    assert_eq!(rt; body.as_slice(), same_record.body.as_slice());
    assert_eq!(rt; body.payloads[2], 0);
    Ok(())
}
