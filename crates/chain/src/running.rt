// What belongs to a running chain alone, and to a draining one.
ghost use Rattle.chain.specs.Calls.{Inject};
ghost use Rattle.chain.specs.View.{chain_of};
ghost use Rattle.eventlog.specs.Sheet.{room};
ghost use Rattle.model.specs.Chain.{injects};
ghost use Rattle.model.specs.Laws.{Continues};
ghost use Rattle.model.specs.Run.{is_draining, is_running};
ghost use Rattle.std.specs.Prelude.{◌≡◌, []};

use crate::inner::Inner;
use crate::ports::Ports;
use crate::states::{Chain, Draining, Running};
use bank::Bank;
use eventlog::sheet::Sheet;
use model::Refusal;
use symbol::end::End;

impl<B: Bank> Chain<B, Running> {
    // The next frame joins the outbox of an end, and is logged.
    pub fn inject(&mut self, end: End, sheet: &mut Sheet<'_>) -> Result<(), Refusal>
        ensures call { Inject B.Bank.calls (chain_of B.Bank.model self.old.inner) end sheet.old
            (chain_of B.Bank.model self.new.inner) sheet.new result }
        ensures run { Continues B.Bank.calls is_running is_running
            (chain_of B.Bank.model self.old.inner) (chain_of B.Bank.model self.new.inner)
            (injects B.Bank.calls (chain_of B.Bank.model self.old.inner) end (room sheet.old)).events }
    {
        self.inner.inject(end, sheet)
    }

    // No frame is injected from here on.
    pub fn drain(self) -> Chain<B, Draining>
        ensures state { chain_of B.Bank.model result.inner ≡ chain_of B.Bank.model self.inner }
        ensures run { Continues B.Bank.calls is_running is_draining
            (chain_of B.Bank.model self.inner) (chain_of B.Bank.model result.inner) [] }
    {
        self.in_state(Draining)
    }
}

impl<B: Bank> Chain<B, Draining> {
    // Ends the chain and gives back its bank.
    pub fn close(self) -> B
        ensures { result ≡ self.inner.bank }
    {
        let Chain { inner, state: _ } = self;
        let Inner {
            bank,
            links: _,
            tick: _,
            ports: _,
        } = inner;
        bank
    }
}
