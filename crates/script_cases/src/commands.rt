// The commands that a cursor reads, with their places.

use script::command::{Command, Links, Placed};
use script::cursor::Cursor;
use script::fault::Place;
use symbol::end::End;
use symbol::{Mark, SymbolKind};

#[test]
fn every_command(rt: HostRuntime) {
    let script =
        b"chain 3\n\n login 2 31 32 14 15\nlose 5 s 7 012\n\n  inject e 1000\nstep 10000\ncollect w 9\npage\ndrain";
    let login = Command::Login {
        link: 2,
        west: 31,
        east: 32,
        west_n: 14,
        east_n: 15,
    };
    let lose = Command::Lose {
        direction: 5,
        kind: SymbolKind::Mark(Mark::BbScS),
        first: 7,
        count: 12,
    };
    let inject = Command::Inject {
        end: End::East,
        count: 1000,
    };
    let collect = Command::Collect {
        end: End::West,
        count: 9,
    };
    let read = [
        (Command::Chain(Links::Three), 1, 1),
        (login, 3, 2),
        (lose, 4, 1),
        (inject, 6, 3),
        (Command::Step { count: 10_000 }, 7, 1),
        (collect, 8, 1),
        (Command::Page, 9, 1),
        (Command::Drain, 10, 1),
    ];
    let mut cursor = Cursor::new(script);
    for (command, line, byte) in read {
        let place = Place { line, byte };
        assert_eq!(rt; cursor.next_command(), Ok(Some(Placed { command, place })));
    }
    assert_eq!(rt; cursor.next_command(), Ok(None));
}
