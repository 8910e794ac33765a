// How a chain is made, and what belongs to a cabled one.
ghost use Rattle.std.specs.Prelude.{◌≡◌, ◌≤◌, []};
ghost use Rattle.chain.specs.View.{chain_of};
ghost use Rattle.chain.specs.Calls.{check_login, login_call};
ghost use Rattle.model.specs.Chain.{all_idle, cabled, cabled_links};
ghost use Rattle.model.specs.Laws.{Continues, EveryRun};
ghost use Rattle.model.specs.Run.{is_cabled, is_running};

use crate::inner::Inner;
use crate::login::Login;
use crate::ports::Ports;
use crate::states::{Cabled, Chain, Running};
use bank::Bank;
use model::Refusal;

// Whether no item waits in the first `count` channels.
fn all_idle<B: Bank>(bank: &B, count: u8) -> bool
    ensures { result ≡ all_idle B.Bank.calls (B.Bank.model bank.now) count }
{
    (0..count).all(|d| bank.is_idle(d))
}

fn links_of<B: Bank>(bank: &B) -> u8
    ensures value { result ≡ cabled_links B.Bank.calls (B.Bank.model bank.now) }
    ensures few { result ≤ 8 }
{
    let count = bank.count();
    if count % 2 == 0 && count <= 16 && all_idle(bank, count) {
        count / 2
    } else {
        0
    }
}

// A chain with half as many links as the bank has channels: no links where these are none, an odd number or more than
// 16, or where an item waits in one. The four laws hold of every run from here, whatever the calls.
pub fn cable<B: Bank>(bank: B) -> Chain<B, Cabled>
    ensures state { chain_of B.Bank.model result.inner ≡ cabled B.Bank.calls (B.Bank.model bank) }
    ensures laws { EveryRun B.Bank.calls (B.Bank.model bank) }
{
    let links = links_of(&bank);
    let ports = Ports::new();
    let inner = Inner {
        bank,
        links,
        tick: 0,
        ports,
    };
    let state = Cabled;
    Chain { inner, state }
}

impl<B: Bank> Chain<B, Cabled> {
    // Sets the buffers and the N of both ends of a link.
    pub fn login(&mut self, login: Login) -> Result<(), Refusal>
        ensures state { chain_of B.Bank.model self.new.inner ≡
            (login_call B.Bank.calls (chain_of B.Bank.model self.old.inner) login).state }
        ensures answer { result ≡ check_login B.Bank.calls (chain_of B.Bank.model self.old.inner) login }
        ensures run { Continues B.Bank.calls is_cabled is_cabled
            (chain_of B.Bank.model self.old.inner) (chain_of B.Bank.model self.new.inner) [] }
    {
        self.inner.login(login)
    }

    pub fn start(self) -> Chain<B, Running>
        ensures state { chain_of B.Bank.model result.inner ≡ chain_of B.Bank.model self.inner }
        ensures run { Continues B.Bank.calls is_cabled is_running
            (chain_of B.Bank.model self.inner) (chain_of B.Bank.model result.inner) [] }
    {
        self.in_state(Running)
    }
}
