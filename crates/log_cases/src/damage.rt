// Each record of the worked run with each of its bits turned: it is refused, or says something else.

use eventlog::event::Event;
use eventlog::sheet::Sheet;
use eventlog::worked::fourth_tick;
use reader::reader::Reader;
use reader::record::{BadRecord, Placed};
use std::process::Abort;
use std::test::*;

fn read_first(log: &[u8]) -> Result<Option<Placed>, BadRecord> {
    Reader::new(log).next_record()
}

// The record as it was written, and with one bit turned.
fn check_turned(rt: &impl Abort, event: Event, byte: usize, bit: u8) -> Result<(), Fail> {
    let mut bytes = [0u8; 8];
    let mut sheet = Sheet::new(&mut bytes, 0);
    sheet.write(event);
    let used = sheet.used();
    assert!(rt; used <= 8);
    match read_first(&bytes[..used]) {
        Ok(Some(placed)) => assert_eq!(rt; placed.event, event),
        _ => return Err(Fail::new("a written record is not read")),
    }
    if byte >= used {
        return Ok(());
    }
    bytes[byte] ^= bit;
    match read_first(&bytes[..used]) {
        Ok(Some(placed)) => assert_ne!(rt; placed.event, event),
        Ok(None) => return Err(Fail::new("a turned record is not there")),
        Err(bad) => assert_eq!(rt; bad.place, 0),
    }
    Ok(())
}

#[test]
fn turned_bits(rt: HostRuntime) -> Result<(), Fail> {
    for event in fourth_tick() {
        for byte in 0..8 {
            for bit in [1u8, 2, 4, 8, 16, 32, 64, 128] {
                check_turned(&rt, event, byte, bit)?;
            }
        }
    }
    Ok(())
}
