// A step of a chain.
ghost use Rattle.std.specs.Prelude.{◌≡◌, ◌*◌, ◌<◌, ◌≤◌, IfOk};
ghost use Rattle.chain.specs.Acts.{Acted};
ghost use Rattle.chain.specs.Calls.{Step};
ghost use Rattle.chain.specs.View.{chain_of};
ghost use Rattle.eventlog.specs.Sheet.{Logs};
ghost use Rattle.model.specs.Chain.{answer, drawn, each_port, freed_events, is_end, sends, source, step_bytes};
ghost use Rattle.model.specs.Chain.{step_refusal, stepped, takes, ticked};

use super::Inner;
use super::room::check_room;
use crate::numbers::PortNumber;
use crate::write::write_taken;
use bank::Bank;
use eventlog::event::{Event, FrameKind, ItemKind};
use eventlog::sheet::Sheet;
use model::Refusal;
use symbol::{Frame, Item, Note, Symbol};

impl<B: Bank> Inner<B> {
    // Port p asks the direction that it takes from, and takes what that hands out.
    fn take(&mut self, p: PortNumber, sheet: &mut Sheet<'_>)
        ensures { Acted (takes B.Bank.calls (chain_of B.Bank.model self.old) p.number) sheet.old
            (chain_of B.Bank.model self.new) sheet.new }
    {
        if let Some(item) = self.bank.take(p.facing().number) {
            let good = self.ports.receive(p, item);
            write_taken(sheet, p.number, item, good);
        }
    }

    fn is_end(&self, p: PortNumber) -> bool
        ensures { result ≡ is_end self.now.links p.number }
    {
        p.number == 0 || p.number == self.last_port().number
    }

    // That p is a port of this chain ties two values, so it stands here and not in a type: it holds in this file alone.

    // The oldest frame that waits for port p.
    fn source(&self, p: PortNumber) -> Option<Frame>
        requires { p.number < 2 * self.now.links }
        ensures { result ≡ source B.Bank.calls (chain_of B.Bank.model self.now) p.number }
    {
        if self.is_end(p) {
            self.ports.at(p).oldest_injected()
        } else {
            self.ports.at(p.behind()).oldest_held()
        }
    }

    // A frame that port p has sent leaves the place where it waited.
    fn draw(&mut self, p: PortNumber, symbol: Symbol, sheet: &mut Sheet<'_>)
        requires { p.number < 2 * self.old.links }
        ensures state { chain_of B.Bank.model self.new ≡
            drawn B.Bank.calls (chain_of B.Bank.model self.old) p.number symbol }
        ensures log { Logs sheet.old (freed_events self.old.links p.number symbol) sheet.new }
    {
        let Symbol::Frame(frame) = symbol else {
            return;
        };
        if self.is_end(p) {
            self.ports.drop_oldest(p);
        } else {
            let behind = p.behind();
            self.ports.free_oldest(behind);
            sheet.write(Event::Frame(FrameKind::Freed, behind.number, frame));
        }
    }

    // Port p sends at most one symbol.
    fn send(&mut self, p: PortNumber, sheet: &mut Sheet<'_>)
        requires { p.number < 2 * self.old.links }
        ensures { Acted (sends B.Bank.calls (chain_of B.Bank.model self.old) p.number) sheet.old
            (chain_of B.Bank.model self.new) sheet.new }
    {
        if !self.bank.has_space(p.number) {
            return;
        }
        let waiting = self.source(p);
        let Some(symbol) = self.ports.send(p, waiting) else {
            return;
        };
        let note = Note::Sound;
        let _ = self.bank.put(p.number, Item { symbol, note });
        sheet.write(Event::Item(ItemKind::Put, p.number, symbol));
        self.draw(p, symbol, sheet);
    }

    // Each port in rising order takes. One loop for this and the next would take a closure over chain and sheet, whose
    // contract is longer than the two.
    fn take_all(&mut self, sheet: &mut Sheet<'_>)
        ensures { Acted (each_port (takes B.Bank.calls) (2 * self.old.links) (chain_of B.Bank.model self.old))
            sheet.old (chain_of B.Bank.model self.new) sheet.new }
    {
        for number in 0..2 * self.links {
            self.take(PortNumber { number }, sheet);
        }
    }

    // Each port in rising order sends.
    fn send_all(&mut self, sheet: &mut Sheet<'_>)
        ensures { Acted (each_port (sends B.Bank.calls) (2 * self.old.links) (chain_of B.Bank.model self.old))
            sheet.old (chain_of B.Bank.model self.new) sheet.new }
    {
        for number in 0..2 * self.links {
            self.send(PortNumber { number }, sheet);
        }
    }

    // The tick rises, and the bank steps.
    fn next_tick(&mut self)
        requires { self.old.tick < 16777215 }
        ensures { chain_of B.Bank.model self.new ≡
            (ticked B.Bank.calls (chain_of B.Bank.model self.old)).state }
    {
        self.tick += 1;
        self.bank.step();
    }

    // A step that nothing refuses.
    pub(crate) fn step_all(&mut self, sheet: &mut Sheet<'_>)
        requires { self.old.tick < 16777215 }
        ensures { Acted (stepped B.Bank.calls (chain_of B.Bank.model self.old)) sheet.old
            (chain_of B.Bank.model self.new) sheet.new }
    {
        self.next_tick();
        sheet.write(Event::Tick(self.tick));
        self.take_all(sheet);
        self.send_all(sheet);
    }

    // Whether a step is refused, with so many bytes left.
    fn check_step(&self, room: usize) -> Result<(), Refusal>
        ensures value { result ≡ answer (step_refusal B.Bank.calls (chain_of B.Bank.model self.now) room) tt }
        ensures early { IfOk result (λ _. self.now.tick < 16777215) }
        ensures fits { IfOk result (λ _. step_bytes self.now.links ≤ room) }
    {
        if self.links == 0 {
            return Err(Refusal::NoLinks);
        }
        if self.tick == 16_777_215 {
            return Err(Refusal::LastTick);
        }
        check_room(room, 6 + 50 * usize::from(self.links))
    }

    pub(crate) fn step(&mut self, sheet: &mut Sheet<'_>) -> Result<(), Refusal>
        ensures { Step B.Bank.calls (chain_of B.Bank.model self.old) sheet.old
            (chain_of B.Bank.model self.new) sheet.new result }
    {
        self.check_step(sheet.room())?;
        self.step_all(sheet);
        Ok(())
    }
}
