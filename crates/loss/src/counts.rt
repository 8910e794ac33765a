// The accepted puts of each kind; a count stops at the largest u32.
ghost use Rattle.loss.specs.Counts.{counted, next, nothing_counted};
ghost use Rattle.std.specs.Prelude.{◌≡◌};

use symbol::{Mark, SymbolKind};

// A field for each kind, matched once to read it and once to write it: an array would number the kinds.
#[derive(Clone, Copy, Default)]
pub struct PutCounts {
    frames: u32,
    rrdys: u32,
    bbscs: u32,
    bbscr: u32,
}

impl PutCounts {
    pub fn new() -> Self
        ensures { result ≡ nothing_counted }
    {
        PutCounts::default()
    }

    // The number of the next put of the kind.
    pub fn next(&self, kind: SymbolKind) -> u32
        ensures { result ≡ next self.now kind }
    {
        let counted = match kind {
            SymbolKind::Frame => self.frames,
            SymbolKind::RRdy => self.rrdys,
            SymbolKind::Mark(Mark::BbScS) => self.bbscs,
            SymbolKind::Mark(Mark::BbScR) => self.bbscr,
        };
        counted.saturating_add(1)
    }

    // Counts a put of the kind.
    pub fn count(&mut self, kind: SymbolKind)
        ensures { self.new ≡ counted self.old kind }
    {
        let number = self.next(kind);
        match kind {
            SymbolKind::Frame => self.frames = number,
            SymbolKind::RRdy => self.rrdys = number,
            SymbolKind::Mark(Mark::BbScS) => self.bbscs = number,
            SymbolKind::Mark(Mark::BbScR) => self.bbscr = number,
        }
    }
}
