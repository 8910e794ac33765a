// What running and draining chains share.
ghost use Rattle.chain.specs.Calls.{Collect, Release, Step, figures_at};
ghost use Rattle.bank.specs.Bank.{letter_at};
ghost use Rattle.chain.specs.View.{chain_of};
ghost use Rattle.eventlog.specs.Sheet.{room};
ghost use Rattle.model.specs.Chain.{collects, releases, steps};
ghost use Rattle.model.specs.Laws.{Continues};
ghost use Rattle.std.specs.Prelude.{◌≡◌};

use crate::numbers::PortNumber;
use crate::states::{Chain, Moving};
use crate::token::Token;
use bank::Bank;
use eventlog::sheet::Sheet;
use model::Refusal;
use port::figures::Figures;
use symbol::end::End;

impl<B: Bank, S: Moving> Chain<B, S> {
    // The tick rises by one, the bank steps, each port takes at most one item, then each sends at most one symbol.
    pub fn step(&mut self, sheet: &mut Sheet<'_>) -> Result<(), Refusal>
        ensures call { Step B.Bank.calls (chain_of B.Bank.model self.old.inner) sheet.old
            (chain_of B.Bank.model self.new.inner) sheet.new result }
        ensures run { Continues B.Bank.calls S.Moving.phase S.Moving.phase
            (chain_of B.Bank.model self.old.inner) (chain_of B.Bank.model self.new.inner)
            (steps B.Bank.calls (chain_of B.Bank.model self.old.inner) (room sheet.old)).events }
    {
        self.inner.step(sheet)
    }

    // Hands out the oldest frame that waits at an end, as a token that must be spent.
    pub fn collect(&mut self, end: End, sheet: &mut Sheet<'_>) -> Result<Token, Refusal>
        ensures call { Collect B.Bank.calls (chain_of B.Bank.model self.old.inner) end sheet.old
            (chain_of B.Bank.model self.new.inner) sheet.new result }
        ensures run { Continues B.Bank.calls S.Moving.phase S.Moving.phase
            (chain_of B.Bank.model self.old.inner) (chain_of B.Bank.model self.new.inner)
            (collects B.Bank.calls (chain_of B.Bank.model self.old.inner) end
            (room sheet.old)).events }
    {
        self.inner.collect(end, sheet)
    }

    // Spends a token: its buffer is free again. A refused release hands it back.
    pub fn release(&mut self, token: Token, sheet: &mut Sheet<'_>) -> Result<(), (Token, Refusal)>
        ensures call { Release B.Bank.calls (chain_of B.Bank.model self.old.inner) token sheet.old
            (chain_of B.Bank.model self.new.inner) sheet.new result }
        ensures run { Continues B.Bank.calls S.Moving.phase S.Moving.phase
            (chain_of B.Bank.model self.old.inner) (chain_of B.Bank.model self.new.inner)
            (releases B.Bank.calls (chain_of B.Bank.model self.old.inner) token.end token.frame.number
            (room sheet.old)).events }
    {
        self.inner.release(token, sheet)
    }
}

impl<B: Bank, S: Moving> Chain<B, S> {
    pub fn links(&self) -> u8
        ensures { result ≡ (chain_of B.Bank.model self.now.inner).links }
    {
        self.inner.links
    }

    pub fn tick(&self) -> u32
        ensures { result ≡ (chain_of B.Bank.model self.now.inner).tick }
    {
        self.inner.tick
    }

    // The letter of the direction that a port sends on.
    pub fn letter(&self, port: u8) -> u8
        ensures { result ≡ letter_at B.Bank.calls (B.Bank.model self.now.inner.bank) port }
    {
        self.inner.bank.letter(port)
    }

    // What a page shows of a port; none where the chain has no such port.
    pub fn figures(&self, port: u8) -> Option<Figures>
        ensures { result ≡ figures_at (chain_of B.Bank.model self.now.inner) port }
    {
        // a then_some would build the port's number before the bound is known, and a closure of then is no plainer
        if port < 2 * self.inner.links {
            Some(self.inner.ports.at(PortNumber { number: port }).figures())
        } else {
            None
        }
    }
}
