// Chains over a channel that has space only when idle, and notes every second item lost.

use bank::Bank;
use bank::one::One;
use bank::pair::Pair;
use chain::cabling::cable;
use chain::login::Login;
use chain::states::{Cabled, Chain, Running};
use eventlog::sheet::Sheet;
use gate::Gate;
use model::Refusal;
use port::figures::Figures;
use symbol::end::End;

// Each call begins the sheet anew.
fn run<B: Bank>(chain: &mut Chain<B, Running>, bytes: &mut [u8]) -> Result<(), Refusal> {
    for _ in 0..8 {
        chain.inject(End::West, &mut Sheet::new(bytes, 0))?;
    }
    for _ in 0..40 {
        chain.step(&mut Sheet::new(bytes, 0))?;
    }
    Ok(())
}

// What the two ends of a link show afterwards: in use, held, owed, frames lost, frames made good.
fn shown(f: Figures) -> [u32; 5] {
    [
        u32::from(f.in_use),
        u32::from(f.held),
        u32::from(f.owed),
        f.frames_lost,
        f.frames_good,
    ]
}

fn log_in<B: Bank>(chain: &mut Chain<B, Cabled>) -> Result<(), Refusal> {
    chain.login(Login {
        link: 0,
        west: 8,
        east: 8,
        west_n: 1,
        east_n: 1,
    })
}

#[test]
fn gates(rt: HostRuntime) {
    let east = One {
        channel: Gate::new(),
    };
    let west = One {
        channel: Gate::new(),
    };
    let mut cabled = cable(Pair::new(east, west));
    let login = log_in(&mut cabled);
    let mut running = cabled.start();
    let ran = run(&mut running, &mut [0u8; 64]);
    let [port_0, port_1, beyond] = [0, 1, 2].map(|port| running.figures(port).map(shown));
    let _bank = running.drain().close();
    assert!(rt; login.is_ok() && ran.is_ok());
    assert_eq!(rt; beyond, None);
    // Lost are frames 2, 3, 6 and 7 and every second mark. The first mark that arrives makes frame 2 good; the next
    // finds none of frames 3 and 6 lost, since two of four came; frame 7 waits for a mark.
    assert_eq!(rt; port_0, Some([7, 0, 0, 0, 0]));
    assert_eq!(rt; port_1, Some([0, 4, 0, 4, 1]));
}
