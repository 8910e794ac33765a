// Which puts are noted lost.
ghost use Rattle.loss.specs.Script.{covers, entries_kept, names};
ghost use Rattle.loss.specs.States.{script_state};
ghost use Rattle.ring.specs.Queue.{pushed};
ghost use Rattle.std.specs.Prelude.{◌≡◌, [], length, nat_lt};

use ring::Ring;
use ring::each::Test;
use symbol::SymbolKind;

const ENTRIES: usize = 16;

// Names `count` puts of a kind from number `first` on, the first put being number 1.
#[derive(Clone, Copy)]
pub struct LossEntry {
    pub kind: SymbolKind,
    pub first: u32,
    pub count: u32,
}

impl LossEntry {
    // The difference is compared, since `first + count` may not fit.
    fn covers(self, kind: SymbolKind, number: u32) -> bool
        ensures { result ≡ covers self kind number }
    {
        self.kind == kind && self.first <= number && number - self.first < self.count
    }
}

// What stands at a place that no entry uses.
const BLANK: LossEntry = LossEntry {
    kind: SymbolKind::RRdy,
    first: 0,
    count: 0,
};

// A put, by its kind and its number among the puts of that kind.
#[derive(Clone, Copy)]
struct Turn {
    kind: SymbolKind,
    number: u32,
}

impl Test<LossEntry> for Turn {
    ghost passes = { λ t e. covers e t.kind t.number };

    fn passes(&self, entry: LossEntry) -> bool {
        entry.covers(self.kind, self.number)
    }
}

// It has no model, as the ring in it has none.
#[derive(Clone, Copy)]
pub struct LossScript {
    entries: Ring<LossEntry, ENTRIES>,
}

impl LossScript {
    // A script that names no put.
    pub fn new() -> Self
        ensures { script_state result ≡ [] }
    {
        LossScript {
            entries: Ring::new(BLANK),
        }
    }

    // Keeps the entry, unless the script is full; answers whether it did.
    pub fn add(&mut self, entry: LossEntry) -> bool
        ensures state { script_state self.new
            ≡ pushed entries_kept (script_state self.old) entry }
        ensures answer { result ≡ nat_lt (length (script_state self.old)) entries_kept }
    {
        self.entries.push(entry)
    }

    // Whether an entry names the put of this number.
    pub fn names(&self, kind: SymbolKind, number: u32) -> bool
        ensures { result ≡ names (script_state self.now) kind number }
    {
        self.entries.any(&Turn { kind, number })
    }
}
