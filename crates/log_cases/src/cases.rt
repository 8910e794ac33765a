// Logs as bytes, each with the number of its records that are read, and the refusal and its place where one is damaged.

use reader::read::read_log;
use std::alloc::Global;
use std::process::Abort;
use std::test::*;

#[derive(Clone, Copy)]
struct Case<'a> {
    log: &'a [u8],
    records: usize,
    // the number of the refusal and its place: none where the whole log is read
    bad: Option<(u8, usize)>,
}

fn read<'a>(log: &'a [u8], records: usize) -> Case<'a> {
    Case {
        log,
        records,
        bad: None,
    }
}

fn refused<'a>(log: &'a [u8], records: usize, number: u8, place: usize) -> Case<'a> {
    Case {
        log,
        records,
        bad: Some((number, place)),
    }
}

fn check_all(rt: &impl Abort, alloc: Global, cases: &[Case]) -> Result<(), Fail> {
    for case in cases {
        let reading = read_log(alloc, case.log)?;
        assert_eq!(rt; reading.records.len(), case.records);
        let bad = reading.bad.map(|bad| (u8::from(bad.refusal), bad.place));
        assert_eq!(rt; bad, case.bad);
    }
    Ok(())
}

// One record of each row of the table.
#[test]
fn rows(rt: HostRuntime) -> Result<(), Fail> {
    check_all(
        &rt,
        rt.alloc(),
        &[
            read(&[], 0),
            read(&[0x84, 1, 0, 0, 0, 1], 1),
            read(&[0x84, 1, 255, 255, 255, 255], 1),
            read(&[0xF0, 2, 0, b'f', 0, 0, 0, 1], 1),
            read(&[0xF0, 3, 15, b'f', 255, 255, 255, 255], 1),
            read(&[0xF0, 4, 7, b'f', 0, 0, 1, 0], 1),
            read(&[0xE0, 2, 0, b'r'], 1),
            read(&[0xE0, 3, 15, b's'], 1),
            read(&[0xE0, 4, 1, b'c'], 1),
            read(&[0xD0, 5, 1, 0, 0, 0, 9], 1),
            read(&[0xD0, 7, 0, 1, 0, 0, 0], 1),
            read(&[0xD0, 8, 15, 0, 0, 0, 1], 1),
            read(&[0xE8, 6, 1, b's', 0, 1], 1),
            read(&[0xE8, 6, 15, b'c', 255, 255], 1),
            read(
                &[0xE0, 2, 0, b'r', 0x84, 1, 0, 0, 0, 2, 0xE0, 3, 1, b'r'],
                3,
            ),
        ],
    )
}

// Fewer bytes are left than the map's fields take, whatever else is wrong.
#[test]
fn cut_logs(rt: HostRuntime) -> Result<(), Fail> {
    check_all(
        &rt,
        rt.alloc(),
        &[
            refused(&[0x84], 0, 11, 0),
            refused(&[0x84, 1, 0, 0, 0], 0, 11, 0),
            refused(&[0xF0, 2, 0, b'f', 0, 0, 0], 0, 11, 0),
            refused(&[0xE0, 2, 0], 0, 11, 0),
            refused(&[0xE8, 6, 1, b's', 0], 0, 11, 0),
            refused(&[0xD0, 5, 1, 0, 0, 0], 0, 11, 0),
            // a full map asks for thirteen bytes of fields
            refused(&[0xFF, 9, 99, b'z', 0, 0, 0, 0, 0, 0, 0, 0, 0], 0, 11, 0),
            // the second record is cut: the first stays read
            refused(&[0xE0, 2, 0, b'r', 0x84, 1, 0, 0, 0], 1, 11, 4),
            refused(&[0x84, 1, 0, 0, 0, 1, 0xF0], 1, 11, 6),
        ],
    )
}

// A map that no row has with this kind.
#[test]
fn wrong_rows(rt: HostRuntime) -> Result<(), Fail> {
    check_all(
        &rt,
        rt.alloc(),
        &[
            // no bit at all, and maps without the kind
            refused(&[0x00], 0, 12, 0),
            refused(&[0x40, 1], 0, 12, 0),
            refused(&[0x04, 0, 0, 0, 1], 0, 12, 0),
            // the bits 02 and 01 stand for no field
            refused(&[0x86, 1, 0, 0, 0, 1], 0, 12, 0),
            refused(&[0x85, 1, 0, 0, 0, 1], 0, 12, 0),
            refused(&[0xE2, 2, 0, b'r'], 0, 12, 0),
            refused(&[0xF1, 2, 0, b'f', 0, 0, 0, 1], 0, 12, 0),
            refused(&[0x02], 0, 12, 0),
            // kinds that no row has
            refused(&[0x84, 0, 0, 0, 0, 1], 0, 12, 0),
            refused(&[0x84, 9, 0, 0, 0, 1], 0, 12, 0),
            refused(&[0xE0, 255, 0, b'r'], 0, 12, 0),
            // kinds under the map of another row
            refused(&[0xE0, 1, 0, b'r'], 0, 12, 0),
            refused(&[0xE0, 5, 0, b'r'], 0, 12, 0),
            refused(&[0xD0, 2, 0, 0, 0, 0, 1], 0, 12, 0),
            refused(&[0xD0, 6, 0, 0, 0, 0, 1], 0, 12, 0),
            refused(&[0xE8, 3, 1, b's', 0, 1], 0, 12, 0),
            refused(&[0xF0, 6, 0, b'f', 0, 0, 0, 1], 0, 12, 0),
            // the row is asked after before the fields
            refused(&[0xE0, 9, 99, b'z'], 0, 12, 0),
            refused(&[0xE0, 3, 0, b'r', 0xE0, 9, 0, b'r'], 1, 12, 4),
        ],
    )
}

// Fields that a row's record cannot have.
#[test]
fn wrong_fields(rt: HostRuntime) -> Result<(), Fail> {
    check_all(
        &rt,
        rt.alloc(),
        &[
            // ports above 15
            refused(&[0xE0, 2, 16, b'r'], 0, 13, 0),
            refused(&[0xF0, 3, 255, b'f', 0, 0, 0, 1], 0, 13, 0),
            refused(&[0xD0, 7, 16, 0, 0, 0, 1], 0, 13, 0),
            refused(&[0xE8, 6, 128, b'c', 0, 1], 0, 13, 0),
            // a frame needs its number, and no other symbol has one
            refused(&[0xE0, 2, 0, b'f'], 0, 13, 0),
            refused(&[0xF0, 2, 0, b'r', 0, 0, 0, 1], 0, 13, 0),
            refused(&[0xF0, 3, 0, b's', 0, 0, 0, 1], 0, 13, 0),
            refused(&[0xF0, 4, 0, b'c', 0, 0, 0, 1], 0, 13, 0),
            // only a mark makes good
            refused(&[0xE8, 6, 0, b'f', 0, 1], 0, 13, 0),
            refused(&[0xE8, 6, 0, b'r', 0, 1], 0, 13, 0),
            // letters of no symbol
            refused(&[0xE0, 2, 0, b'R'], 0, 13, 0),
            refused(&[0xE0, 2, 0, 0], 0, 13, 0),
            refused(&[0xF0, 2, 0, b'F', 0, 0, 0, 1], 0, 13, 0),
            refused(&[0xE0, 2, 0, 0xF2], 0, 13, 0),
            // numbers of 0
            refused(&[0x84, 1, 0, 0, 0, 0], 0, 13, 0),
            refused(&[0xF0, 2, 0, b'f', 0, 0, 0, 0], 0, 13, 0),
            refused(&[0xD0, 5, 0, 0, 0, 0, 0], 0, 13, 0),
            refused(&[0xE8, 6, 0, b's', 0, 0], 0, 13, 0),
            refused(&[0x84, 1, 0, 0, 0, 1, 0xE0, 2, 16, b'r'], 1, 13, 6),
        ],
    )
}
