// Records written to sheets with room and without.

ghost use Rattle.eventlog.specs.Sheet.{Sheet as Written, Whole, logged};
ghost use Rattle.std.specs.Prelude.{◌≡◌, [], ◌∷◌};

use eventlog::event::{Event, ItemKind};
use eventlog::sheet::Sheet;
use eventlog::worked::fourth_tick;
use std::test::*;
use symbol::{Frame, Symbol};

// A sheet over some bytes leaves in them what was written.
fn write_all(bytes: &mut [u8], used: usize, events: &[Event]) -> usize
    ensures each { ◌≡◌ {A = Written} (bytes.new, result) (logged (bytes.old, used) events.now) }
    ensures whole { Whole (bytes.old, used) events.now (bytes.new, result) }
{
    let mut sheet = Sheet::new(bytes, used);
    sheet.write_all(events);
    sheet.used()
}

fn write(bytes: &mut [u8], used: usize, event: Event) -> usize
    ensures { ◌≡◌ {A = Written} (bytes.new, result) (logged (bytes.old, used) (event ∷ [])) }
{
    let mut sheet = Sheet::new(bytes, used);
    sheet.write(event);
    sheet.used()
}

#[test]
fn four_records(rt: HostRuntime) {
    let mut sheet = [0xAAu8; 22];
    assert_eq!(rt; write_all(&mut sheet, 1, &fourth_tick()), 21);
    assert_eq!(rt;
        sheet,
        [
            0xAA, 0x84, 1, 0, 0, 0, 4, 0xE0, 3, 1, b's', 0xE8, 6, 1, b's', 0, 1, 0xE0, 2, 1, b'r',
            0xAA,
        ]
    );
}

#[test]
fn exact_and_short_room(rt: HostRuntime) {
    let put = Event::Item(ItemKind::Put, 3, Symbol::Frame(Frame { number: 258 }));
    let mut exact = [0xAAu8; 9];
    assert_eq!(rt; write(&mut exact, 1, put), 9);
    assert_eq!(rt; exact, [0xAA, 0xF0, 2, 3, b'f', 0, 0, 1, 2]);
    let mut short = [0xAAu8; 8];
    assert_eq!(rt; write(&mut short, 1, put), 1);
    assert_eq!(rt; short, [0xAA; 8]);
    // past the end no byte is left
    assert_eq!(rt; write(&mut short, 9, put), 9);
    assert_eq!(rt; write(&mut short, usize::MAX, put), usize::MAX);
    assert_eq!(rt; short, [0xAA; 8]);
}

// A record that does not fit is left out whole, and a shorter one behind it is written.
#[test]
fn one_left_out(rt: HostRuntime) {
    let put = Event::Item(ItemKind::Put, 3, Symbol::Frame(Frame { number: 1 }));
    let rrdy = Event::Item(ItemKind::Got, 2, Symbol::RRdy);
    let mut sheet = [0xAAu8; 6];
    assert_eq!(rt; write_all(&mut sheet, 1, &[put, rrdy]), 5);
    assert_eq!(rt; sheet, [0xAA, 0xE0, 3, 2, b'r', 0xAA]);
}
