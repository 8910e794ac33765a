// The ports of a chain, by number.
ghost use Rattle.std.specs.Prelude.{◌≡◌, replicate, slice_set};
ghost use Rattle.chain.specs.View.{ports_of};
ghost use Rattle.model.specs.Chain.{port_at};
ghost use Rattle.port.specs.Port.{after_send, choice, correction, handed_out, injected_frame, injects_at, logged_in};
ghost use Rattle.port.specs.Port.{new_port, received, released, sent_on, some_buffers, some_n, unsent};
ghost use Rattle.port.specs.View.{view};
ghost use Rattle.ring.specs.Queue.{head?};

use crate::numbers::PortNumber;
use port::Port;
use symbol::{Frame, Item, Symbol};

// A chain has at most eight links, and the bench uses no heap.
const PORTS: usize = 16;

// Contracts read it by specs/View.antt, as they read the ports in it.
#[derive(Drop)]
pub struct Ports {
    table: [Port; PORTS],
}

// A method for each call that changes a port: what is written through a `&mut` into a table is not known to a proof.
#[tactic(auto, using(crate::proofs::Tables::by_port))]
impl Ports {
    pub(crate) fn new() -> Self
        ensures { ports_of result ≡ replicate 16 new_port }
    {
        Ports {
            table: [Port::new(1, 1, 0); PORTS],
        }
    }

    // A port, to be asked.
    pub(crate) fn at(&self, p: PortNumber) -> &Port
        ensures { view result.now ≡ port_at (ports_of self.now) p.number }
    {
        &self.table[usize::from(p.number)]
    }

    pub(crate) fn log_in(&mut self, p: PortNumber, own: u8, other: u8, n: u8)
        ensures { ports_of self.new ≡
            slice_set (ports_of self.old) p.number (logged_in (some_buffers own) (some_buffers other) (some_n n)) }
    {
        self.table[usize::from(p.number)] = Port::new(own, other, n);
    }

    pub(crate) fn receive(&mut self, p: PortNumber, item: Item) -> u8
        ensures state { ports_of self.new ≡ slice_set (ports_of self.old) p.number
            (received (port_at (ports_of self.old) p.number) item.note item.symbol) }
        ensures answer { result ≡
            correction (port_at (ports_of self.old) p.number) item.note item.symbol }
    {
        self.table[usize::from(p.number)].receive(item)
    }

    pub(crate) fn send(&mut self, p: PortNumber, waiting: Option<Frame>) -> Option<Symbol>
        ensures state { ports_of self.new ≡ slice_set (ports_of self.old) p.number
            (after_send (port_at (ports_of self.old) p.number)
            (choice (port_at (ports_of self.old) p.number) waiting)) }
        ensures answer { result ≡ choice (port_at (ports_of self.old) p.number) waiting }
    {
        self.table[usize::from(p.number)].send(waiting)
    }

    pub(crate) fn free_oldest(&mut self, p: PortNumber)
        ensures { ports_of self.new ≡
            slice_set (ports_of self.old) p.number (sent_on (port_at (ports_of self.old) p.number)) }
    {
        self.table[usize::from(p.number)].free_oldest();
    }

    pub(crate) fn drop_oldest(&mut self, p: PortNumber)
        ensures { ports_of self.new ≡
            slice_set (ports_of self.old) p.number (unsent (port_at (ports_of self.old) p.number)) }
    {
        self.table[usize::from(p.number)].drop_oldest();
    }

    pub(crate) fn inject(&mut self, p: PortNumber) -> Option<Frame>
        ensures state { ports_of self.new ≡
            slice_set (ports_of self.old) p.number (injects_at (port_at (ports_of self.old) p.number)) }
        ensures answer { result ≡ injected_frame (port_at (ports_of self.old) p.number) }
    {
        self.table[usize::from(p.number)].inject()
    }

    pub(crate) fn hand_out(&mut self, p: PortNumber) -> Option<Frame>
        ensures state { ports_of self.new ≡
            slice_set (ports_of self.old) p.number (handed_out (port_at (ports_of self.old) p.number)) }
        ensures answer { result ≡ head? (port_at (ports_of self.old) p.number).buffers.waiting }
    {
        self.table[usize::from(p.number)].hand_out()
    }

    pub(crate) fn release(&mut self, p: PortNumber, number: u32)
        ensures { ports_of self.new ≡
            slice_set (ports_of self.old) p.number (released (port_at (ports_of self.old) p.number) number) }
    {
        self.table[usize::from(p.number)].release(number);
    }
}
