// Login, and the calls at the two ends of a chain.
ghost use Rattle.std.specs.Prelude.{◌≡◌, ◌≤◌, IfOk, false};
ghost use Rattle.chain.specs.Calls.{Collect, Inject, LoginFits, Release, check_login, login_call};
ghost use Rattle.chain.specs.View.{chain_of};
ghost use Rattle.model.specs.Chain.{answer, call_bytes, collectable, end_port, inject_refusal, last_port};
ghost use Rattle.model.specs.Chain.{port_at_end, release_refusal};
ghost use Rattle.port.specs.Port.{box_full};

use super::Inner;
use super::room::check_room;
use crate::login::Login;
use crate::numbers::PortNumber;
use crate::token::Token;
use bank::Bank;
use eventlog::event::{Event, FrameKind};
use eventlog::sheet::Sheet;
use model::Refusal;
use symbol::Frame;
use symbol::end::End;

// The bytes that inject, collect and release ask for.
const CALL: usize = 7;

impl<B: Bank> Inner<B> {
    pub(crate) fn last_port(&self) -> PortNumber
        ensures { result.number ≡ last_port (chain_of B.Bank.model self.now) }
    {
        let number = (2 * self.links).saturating_sub(1);
        PortNumber { number }
    }

    fn end_port(&self, end: End) -> PortNumber
        ensures { result.number ≡ end_port (chain_of B.Bank.model self.now) end }
    {
        match end {
            End::West => PortNumber { number: 0 },
            End::East => self.last_port(),
        }
    }

    // Whether a login is refused.
    fn check_login(&self, login: Login) -> Result<(), Refusal>
        ensures value { result ≡ check_login B.Bank.calls (chain_of B.Bank.model self.now) login }
        ensures fits { IfOk result (λ _. LoginFits self.now.links login) }
    {
        if login.link >= u32::from(self.links) {
            return Err(Refusal::NoLinks);
        }
        if !(1..=32).contains(&login.west) || !(1..=32).contains(&login.east) {
            return Err(Refusal::BadBuffers);
        }
        if login.west_n > 15 || login.east_n > 15 {
            return Err(Refusal::BadN);
        }
        if login.west_n == login.east_n {
            Ok(())
        } else {
            Err(Refusal::OtherN)
        }
    }

    // Sets both ends of a link.
    pub(crate) fn login(&mut self, login: Login) -> Result<(), Refusal>
        ensures state { chain_of B.Bank.model self.new ≡
            (login_call B.Bank.calls (chain_of B.Bank.model self.old) login).state }
        ensures answer { result ≡ check_login B.Bank.calls (chain_of B.Bank.model self.old) login }
    {
        self.check_login(login)?;
        let west = PortNumber {
            number: 2 * login.link as u8,
        };
        let n = login.east_n as u8;
        self.ports
            .log_in(west, login.west as u8, login.east as u8, n);
        self.ports
            .log_in(west.facing(), login.east as u8, login.west as u8, n);
        Ok(())
    }

    // Each check also tells what is left, for the proof of the call that writes: it is known only of what was accepted,
    // and so of no type.

    // Whether an inject is refused, with so many bytes left.
    fn check_inject(&self, end: End, room: usize) -> Result<(), Refusal>
        ensures value { result ≡ answer (inject_refusal B.Bank.calls (chain_of B.Bank.model self.now) end room) tt }
        ensures open { IfOk result
            (λ _. box_full (port_at_end (chain_of B.Bank.model self.now) end).outbox ≡ false) }
        ensures fits { IfOk result (λ _. call_bytes ≤ room) }
    {
        if self.links == 0 {
            return Err(Refusal::NoLinks);
        }
        if self.ports.at(self.end_port(end)).is_outbox_full() {
            return Err(Refusal::OutboxFull);
        }
        check_room(room, CALL)
    }

    // The next frame joins the outbox of an end.
    pub(crate) fn inject(&mut self, end: End, sheet: &mut Sheet<'_>) -> Result<(), Refusal>
        ensures { Inject B.Bank.calls (chain_of B.Bank.model self.old) end sheet.old
            (chain_of B.Bank.model self.new) sheet.new result }
    {
        self.check_inject(end, sheet.room())?;
        let port = self.end_port(end);
        let frame = self.ports.inject(port).ok_or(Refusal::OutboxFull)?;
        sheet.write(Event::Frame(FrameKind::Injected, port.number, frame));
        Ok(())
    }

    // The oldest frame that waits at an end, or why it is not handed out.
    fn collectable(&self, end: End, room: usize) -> Result<Frame, Refusal>
        ensures value { result ≡ collectable B.Bank.calls (chain_of B.Bank.model self.now) end room }
        ensures fits { IfOk result (λ _. call_bytes ≤ room) }
    {
        if self.links == 0 {
            return Err(Refusal::NoLinks);
        }
        let frame = self
            .ports
            .at(self.end_port(end))
            .oldest_held()
            .ok_or(Refusal::NoFrame)?;
        check_room(room, CALL)?;
        Ok(frame)
    }

    // Hands out the oldest frame that waits at an end.
    pub(crate) fn collect(&mut self, end: End, sheet: &mut Sheet<'_>) -> Result<Token, Refusal>
        ensures { Collect B.Bank.calls (chain_of B.Bank.model self.old) end sheet.old
            (chain_of B.Bank.model self.new) sheet.new result }
    {
        let frame = self.collectable(end, sheet.room())?;
        let port = self.end_port(end);
        let _ = self.ports.hand_out(port);
        sheet.write(Event::Frame(FrameKind::Collected, port.number, frame));
        Ok(Token { end, frame })
    }

    // Whether a release is refused, with so many bytes left.
    fn check_release(&self, end: End, number: u32, room: usize) -> Result<(), Refusal>
        ensures value { result ≡
            answer (release_refusal B.Bank.calls (chain_of B.Bank.model self.now) end number room) tt }
        ensures fits { IfOk result (λ _. call_bytes ≤ room) }
    {
        if !self.ports.at(self.end_port(end)).is_out(number) {
            return Err(Refusal::NotHandedOut);
        }
        check_room(room, CALL)
    }

    // Spends a token: its buffer is free again. A refused release hands it back.
    pub(crate) fn release(
        &mut self,
        token: Token,
        sheet: &mut Sheet<'_>,
    ) -> Result<(), (Token, Refusal)>
        ensures { Release B.Bank.calls (chain_of B.Bank.model self.old) token sheet.old
            (chain_of B.Bank.model self.new) sheet.new result }
    {
        // the token can't go into a closure of map_err, since it is still wanted behind it
        if let Err(refusal) = self.check_release(token.end, token.frame.number, sheet.room()) {
            return Err((token, refusal));
        }
        let Token { end, frame } = token;
        let port = self.end_port(end);
        self.ports.release(port, frame.number);
        sheet.write(Event::Frame(FrameKind::Freed, port.number, frame));
        Ok(())
    }
}
