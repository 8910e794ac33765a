// Refusals of a chain, with what they leave.

use bank::Bank;
use bank::one::One;
use bank::pair::Pair;
use chain::cabling::cable;
use chain::login::Login;
use chain::states::{Cabled, Chain, Draining, Moving, Running};
use chain::token::Token;
use channel::Channel;
use channel::wire::Wire;
use eventlog::sheet::Sheet;
use links::losses::Losses;
use links::one_link;
use model::Refusal;
use symbol::end::End;
use symbol::{Item, Note, Symbol};

// The number of a call's refusal, as it stands outside; none where it was accepted.
fn refused<T: Drop>(answer: Result<T, Refusal>) -> Option<u8> {
    answer.err().map(u8::from)
}

// A login of these buffers and Ns, west and east.
fn log_in<B: Bank>(
    chain: &mut Chain<B, Cabled>,
    link: u32,
    buffers: (u32, u32),
    ns: (u32, u32),
) -> Option<u8> {
    let (west, east) = buffers;
    let (west_n, east_n) = ns;
    refused(chain.login(Login {
        link,
        west,
        east,
        west_n,
        east_n,
    }))
}

// Buffers, N and links that a login refuses, in the order in which they are asked after.
// Only the first is accepted.
fn try_logins<B: Bank>(chain: &mut Chain<B, Cabled>) -> (Option<u8>, [Option<u8>; 8]) {
    let accepted = log_in(chain, 0, (32, 1), (15, 15));
    let others = [
        log_in(chain, 1, (99, 0), (99, 98)),
        log_in(chain, 256, (1, 1), (0, 0)),
        log_in(chain, 0, (0, 1), (16, 15)),
        log_in(chain, 0, (33, 1), (0, 0)),
        log_in(chain, 0, (1, 257), (0, 0)),
        log_in(chain, 0, (1, 1), (16, 0)),
        log_in(chain, 0, (1, 1), (0, 99_999_999)),
        log_in(chain, 0, (1, 1), (1, 2)),
    ];
    (accepted, others)
}

// A sheet without room leaves its bytes, and an outbox takes 32 frames.
fn try_calls<B: Bank>(chain: &mut Chain<B, Running>, bytes: &mut [u8]) -> [Option<u8>; 3] {
    [
        refused(chain.inject(End::West, &mut Sheet::new(bytes, 58))),
        refused(chain.step(&mut Sheet::new(bytes, 9))),
        refused(chain.step(&mut Sheet::new(bytes, 65))),
    ]
}

fn fill_outbox<B: Bank>(
    chain: &mut Chain<B, Running>,
    bytes: &mut [u8],
) -> (u32, Option<u8>, Option<u8>) {
    // a loop, since the closure of a filter would change the chain
    let mut taken = 0u32;
    for _ in 0..40 {
        if chain.inject(End::West, &mut Sheet::new(bytes, 0)).is_ok() {
            taken = taken.saturating_add(1);
        }
    }
    (
        taken,
        refused(chain.inject(End::West, &mut Sheet::new(bytes, 64))),
        refused(chain.inject(End::East, &mut Sheet::new(bytes, 57))),
    )
}

fn collect_refused<B: Bank>(chain: &mut Chain<B, Draining>, end: End) -> Option<u8> {
    let mut bytes = [0u8; 7];
    let collected = chain.collect(end, &mut Sheet::new(&mut bytes, 0));
    refused(collected.map(|token| token.write_off()))
}

#[test]
fn one_link_refuses(rt: HostRuntime) {
    let mut bytes = [0xAAu8; 64];
    let mut cabled = cable(one_link(&Losses::new()));
    let logins = try_logins(&mut cabled);
    let mut running = cabled.start();
    let calls = try_calls(&mut running, &mut bytes);
    let untouched = bytes;
    let outbox = fill_outbox(&mut running, &mut bytes);
    let mut draining = running.drain();
    let waits = collect_refused(&mut draining, End::West);
    let _bank = draining.close();
    let numbers = [
        Some(1),
        Some(1),
        Some(2),
        Some(2),
        Some(2),
        Some(3),
        Some(3),
        Some(4),
    ];
    assert_eq!(rt; logins, (None, numbers));
    assert_eq!(rt; calls, [Some(9); 3]);
    assert_eq!(rt; untouched, [0xAA; 64]);
    assert_eq!(rt; outbox, (32, Some(6), None));
    assert_eq!(rt; waits, Some(7));
}

// A chain over a bank that fits no chain: an odd number of channels, or one that is not idle.
fn check_no_links<B: Bank>(bank: B) -> (B, [Option<u8>; 4], u8) {
    let mut bytes = [0u8; 64];
    let mut sheet = Sheet::new(&mut bytes, 64);
    let mut cabled = cable(bank);
    let login = log_in(&mut cabled, 0, (1, 1), (0, 0));
    let mut running = cabled.start();
    let inject = refused(running.inject(End::East, &mut sheet));
    let step = refused(running.step(&mut sheet));
    let links = running.links();
    let mut draining = running.drain();
    let collect = collect_refused(&mut draining, End::East);
    (draining.close(), [login, inject, step, collect], links)
}

#[test]
fn no_links(rt: HostRuntime) {
    let (_one, odd, links) = check_no_links(One {
        channel: Wire::new(),
    });
    assert_eq!(rt; odd, [Some(1); 4]);
    assert_eq!(rt; links, 0);
    let mut busy = Wire::new();
    let symbol = Symbol::RRdy;
    let note = Note::Sound;
    assert!(rt; busy.put(Item { symbol, note }));
    let (bank, busy, links) = check_no_links(Pair::new(
        One { channel: busy },
        One {
            channel: Wire::new(),
        },
    ));
    assert_eq!(rt; busy, [Some(1); 4]);
    assert_eq!(rt; links, 0);
    assert!(rt; !bank.is_idle(0));
}

// Steps a link to its last tick, and asks for one more.
fn to_last_tick<B: Bank>(chain: &mut Chain<B, Running>, bytes: &mut [u8]) -> Option<u8> {
    for _ in 0..16_777_215 {
        let refused = refused(chain.step(&mut Sheet::new(bytes, 0)));
        if refused.is_some() {
            return refused;
        }
    }
    refused(chain.step(&mut Sheet::new(bytes, 56)))
}

#[test]
fn last_tick(rt: HostRuntime) {
    let mut running = cable(one_link(&Losses::new())).start();
    let refused = to_last_tick(&mut running, &mut [0u8; 56]);
    let tick = running.tick();
    let _bank = running.drain().close();
    assert_eq!(rt; refused, Some(5));
    assert_eq!(rt; tick, 16_777_215);
}

// One frame goes east; its token is refused elsewhere, handed back, and then released where it came from.
fn release<B: Bank, S: Moving>(
    chain: &mut Chain<B, S>,
    token: Token,
    room: usize,
) -> Result<(), (Token, Refusal)> {
    let mut bytes = [0u8; 7];
    chain.release(token, &mut Sheet::new(&mut bytes, 7 - room.min(7)))
}

fn arrives<B: Bank>(chain: &mut Chain<B, Running>) -> Result<Token, Refusal> {
    let mut bytes = [0u8; 56];
    chain.inject(End::West, &mut Sheet::new(&mut bytes, 0))?;
    chain.step(&mut Sheet::new(&mut bytes, 0))?;
    chain.step(&mut Sheet::new(&mut bytes, 0))?;
    chain.collect(End::East, &mut Sheet::new(&mut bytes, 0))
}

// The refusals of a release elsewhere, of one without room, and of the one that is left, as far as a token is there.
fn check_token<B: Bank>(
    home: &mut Chain<B, Running>,
    other: &mut Chain<B, Running>,
) -> [Option<u8>; 3] {
    let Ok(token) = arrives(home) else {
        return [None; 3];
    };
    let Err((token, elsewhere)) = release(other, token, 7) else {
        return [None; 3];
    };
    let elsewhere = Some(u8::from(elsewhere));
    let Err((token, no_room)) = release(home, token, 6) else {
        return [elsewhere, None, None];
    };
    let no_room = Some(u8::from(no_room));
    match release(home, token, 7) {
        Ok(()) => [elsewhere, no_room, None],
        Err((token, refusal)) => {
            token.write_off();
            [elsewhere, no_room, Some(u8::from(refusal))]
        }
    }
}

#[test]
fn tokens(rt: HostRuntime) {
    let mut home = cable(one_link(&Losses::new())).start();
    let mut other = cable(one_link(&Losses::new())).start();
    let refused = check_token(&mut home, &mut other);
    let _home = home.drain().close();
    let _other = other.drain().close();
    assert_eq!(rt; refused, [Some(8), Some(9), None]);
}
