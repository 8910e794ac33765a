// What a port does with an item that it takes.
ghost use Rattle.port.specs.Port.{arrived, correction, found, frame_arrived, frames_corrected, frames_found, missed};
ghost use Rattle.port.specs.Port.{received, rrdy_arrived, rrdys_corrected, rrdys_found};
ghost use Rattle.port.specs.View.{view};
ghost use Rattle.std.specs.Prelude.{◌≡◌};

use super::Port;
use symbol::{Frame, Item, Mark, Note, Symbol};

impl Port {
    // A sound frame is held and counted; a full port drops it.
    fn frame_arrives(&mut self, frame: Frame)
        ensures { view self.new ≡ frame_arrived (view self.old) frame }
    {
        if self.buffers.fill(frame) {
            self.frames_in.get(self.modulus);
        }
    }

    // A sound R_RDY gives a credit back and is counted, unless no credit is in use.
    fn rrdy_arrives(&mut self)
        ensures { view self.new ≡ rrdy_arrived (view self.old) }
    {
        if self.credit.give_back(1) > 0 {
            self.rrdys_in.get(self.modulus);
        }
    }

    // A sound BB_SCs: R_RDYs are owed for the frames that it finds lost, as far as there are free buffers.
    // One call for both marks would take a closure that changes a field, and its proof does not learn how, or a trait
    // of one method, which is longer.
    fn frames_marked(&mut self) -> u8
        ensures state { view self.new ≡ frames_corrected (view self.old) }
        ensures answer { result ≡ frames_found (view self.old) }
    {
        let lost = self.modulus.lost_of(self.frames_in.got);
        let good = self.buffers.owe(lost);
        self.frames_in.correct(good);
        good
    }

    // A sound BB_SCr: the credits of the R_RDYs that it finds lost are back, as far as any are in use.
    fn rrdys_marked(&mut self) -> u8
        ensures state { view self.new ≡ rrdys_corrected (view self.old) }
        ensures answer { result ≡ rrdys_found (view self.old) }
    {
        let lost = self.modulus.lost_of(self.rrdys_in.got);
        let good = self.credit.give_back(lost);
        self.rrdys_in.correct(good);
        good
    }

    // A lost item is only noted.
    fn miss(&mut self, symbol: Symbol)
        ensures { view self.new ≡ missed (view self.old) symbol }
    {
        match symbol {
            Symbol::Frame(_) => self.frames_in.miss(),
            Symbol::RRdy => self.rrdys_in.miss(),
            Symbol::Mark(_) => {}
        }
    }

    // A sound symbol; the answer is how many it made good.
    fn arrive(&mut self, symbol: Symbol) -> u8
        ensures state { view self.new ≡ arrived (view self.old) symbol }
        ensures answer { result ≡ found (view self.old) symbol }
    {
        match symbol {
            Symbol::Frame(frame) => {
                self.frame_arrives(frame);
                0
            }
            Symbol::RRdy => {
                self.rrdy_arrives();
                0
            }
            Symbol::Mark(Mark::BbScS) => self.frames_marked(),
            Symbol::Mark(Mark::BbScR) => self.rrdys_marked(),
        }
    }

    // An item that the port has taken; the answer is how many it made good.
    pub fn receive(&mut self, item: Item) -> u8
        ensures state { view self.new ≡
            received (view self.old) item.note item.symbol }
        ensures answer { result ≡ correction (view self.old) item.note item.symbol }
    {
        match item.note {
            Note::Sound => self.arrive(item.symbol),
            Note::Lost => {
                self.miss(item.symbol);
                0
            }
        }
    }
}
