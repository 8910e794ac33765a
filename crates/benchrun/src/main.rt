// benchrun: one job over a chain of two links, from its cabling to its end, and what was logged of it.
#![tactic(auto)]

use bank::Bank;
use bank::pair::Pair;
use chain::cabling::cable;
use chain::login::Login;
use chain::states::{Cabled, Chain, Draining, Moving, Running};
use chain::token::Token;
use eventlog::sheet::Sheet;
use links::losses::Losses;
use links::{OneLink, one_link};
use listing::part::write_listing;
use loss::script::LossEntry;
use model::Refusal;
use port::figures::Figures;
use symbol::SymbolKind;
use symbol::end::End;

const SHEET: usize = 8192;

// Chain and sheet go side by side, and not as a struct, since start and drain change the chain's type.

// The loss of one symbol of a kind, by its number.
fn loss_of(kind: SymbolKind, first: u32) -> LossEntry {
    let count = 1;
    LossEntry { kind, first, count }
}

// The second frame is lost on the way east of the west link, and the first R_RDY on the way west of the east link.
fn two_links() -> Pair<OneLink, OneLink> {
    let mut west = Losses::new();
    let _ = west.add(0, loss_of(SymbolKind::Frame, 2));
    let mut east = Losses::new();
    let _ = east.add(1, loss_of(SymbolKind::RRdy, 1));
    Pair::new(one_link(&west), one_link(&east))
}

// Four buffers at each end of a link.
fn four_each(link: u32, n: u32) -> Login {
    Login {
        link,
        west: 4,
        east: 4,
        west_n: n,
        east_n: n,
    }
}

fn log_in<B: Bank>(chain: &mut Chain<B, Cabled>) -> Result<(), Refusal> {
    chain.login(four_each(0, 2))?;
    chain.login(four_each(1, 1))
}

fn inject<B: Bank>(
    chain: &mut Chain<B, Running>,
    end: End,
    count: u32,
    sheet: &mut Sheet<'_>,
) -> Result<(), Refusal> {
    for _ in 0..count {
        chain.inject(end, sheet)?;
    }
    Ok(())
}

fn step<B: Bank, S: Moving>(
    chain: &mut Chain<B, S>,
    count: u32,
    sheet: &mut Sheet<'_>,
) -> Result<(), Refusal> {
    for _ in 0..count {
        chain.step(sheet)?;
    }
    Ok(())
}

fn release<B: Bank, S: Moving>(
    chain: &mut Chain<B, S>,
    token: Token,
    sheet: &mut Sheet<'_>,
) -> Result<(), Refusal> {
    chain.release(token, sheet).map_err(|(token, refusal)| {
        token.write_off();
        refusal
    })
}

// Collects every frame that waits at an end, and releases each a step late.
fn collect_all<B: Bank, S: Moving>(
    chain: &mut Chain<B, S>,
    end: End,
    sheet: &mut Sheet<'_>,
) -> Result<(), Refusal> {
    // no more wait, and a `while` would have to be proved to end
    for _ in 0..32 {
        let Ok(token) = chain.collect(end, sheet) else {
            break;
        };
        let stepped = step(chain, 1, sheet);
        release(chain, token, sheet)?;
        stepped?;
    }
    Ok(())
}

// The first frame at the east end is collected and kept: its buffer stays held.
fn keep_one<B: Bank, S: Moving>(
    chain: &mut Chain<B, S>,
    sheet: &mut Sheet<'_>,
) -> Result<(), Refusal> {
    chain.collect(End::East, sheet)?.write_off();
    Ok(())
}

fn run<B: Bank>(chain: &mut Chain<B, Running>, sheet: &mut Sheet<'_>) -> Result<(), Refusal> {
    inject(chain, End::West, 6, sheet)?;
    inject(chain, End::East, 3, sheet)?;
    step(chain, 10, sheet)?;
    keep_one(chain, sheet)
}

fn drain<B: Bank>(chain: &mut Chain<B, Draining>, sheet: &mut Sheet<'_>) -> Result<(), Refusal> {
    for _ in 0..4 {
        step(chain, 6, sheet)?;
        collect_all(chain, End::East, sheet)?;
        collect_all(chain, End::West, sheet)?;
    }
    Ok(())
}

fn print_port(rt: &HostRuntime, port: usize, f: Figures) -> anyhow::Result<()> {
    println!(rt;
        "port {port}: {} of {} credits in use, {} held, {} owed",
        f.in_use, f.limit, f.held, f.owed
    )?;
    println!(rt;
        "  frames lost {} made good {}",
        f.frames_lost, f.frames_good
    )?;
    println!(rt; "  R_RDYs lost {} made good {}", f.rrdys_lost, f.rrdys_good)?;
    println!(rt; "  injected {} collected {}", f.injected, f.collected)?;
    Ok(())
}

fn told(rt: &HostRuntime, what: &str, done: Result<(), Refusal>) -> anyhow::Result<()> {
    match done {
        Ok(()) => println!(rt; "{what}: done")?,
        Err(refusal) => {
            println!(rt; "{what}: refused {}", u8::from(refusal))?;
        }
    }
    Ok(())
}

fn main(rt: HostRuntime) -> anyhow::Result<()> {
    let mut bytes = vec![in rt.alloc(); 0u8; SHEET]?;
    let mut sheet = Sheet::new(bytes.as_mut_slice(), 0);
    let mut cabled = cable(two_links());
    let logins = log_in(&mut cabled);
    let mut running = cabled.start();
    let ran = run(&mut running, &mut sheet);
    let mut draining = running.drain();
    let drained = drain(&mut draining, &mut sheet);
    let figures = [0, 1, 2, 3].map(|port| draining.figures(port));
    let _bank = draining.close();
    told(&rt, "logins", logins)?;
    told(&rt, "run", ran)?;
    told(&rt, "drain", drained)?;
    write_listing::<_, anyhow::Error>(rt.alloc(), sheet.written(), &mut rt.stdout())?;
    for (port, figures) in figures.iter().enumerate() {
        if let Some(f) = figures {
            print_port(&rt, port, *f)?;
        }
    }
    Ok(())
}
