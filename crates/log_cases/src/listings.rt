// Logs in words, written to a list.

use eventlog::sheet::Sheet;
use eventlog::worked::fourth_tick;
use listing::part::write_listing;
use std::test::Fail;

#[test]
fn four_lines(rt: HostRuntime) -> Result<(), Fail> {
    let mut bytes = [0u8; 20];
    let mut sheet = Sheet::new(&mut bytes, 0);
    sheet.write_all(&fourth_tick());
    let mut text = Vec::new(rt.alloc());
    write_listing::<_, Fail>(rt.alloc(), sheet.written(), &mut text)?;
    assert_eq!(rt;
        text.as_slice(),
        b"0 tick 4\n6 port 1 got BB_SCs\n10 port 1 made good 1 by BB_SCs\n16 port 1 put R_RDY\n".as_slice()
    );
    Ok(())
}

// Bytes that are no record end the listing with a line that says so.
#[test]
fn one_line_and_a_refusal(rt: HostRuntime) -> Result<(), Fail> {
    let mut text = Vec::new(rt.alloc());
    write_listing::<_, Fail>(rt.alloc(), &[0xE0, 2, 0, b'r', 0x84, 1], &mut text)?;
    assert_eq!(rt;
        text.as_slice(),
        b"0 port 0 put R_RDY\nrefused 11 at 4\n".as_slice()
    );
    Ok(())
}
