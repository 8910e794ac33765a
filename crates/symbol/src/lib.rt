// What travels on a link.
#![tactic(auto)]

ghost use Rattle.symbol.specs.Symbols.{KindRead, kind_of, letter, noted_lost};
ghost use Rattle.std.specs.Prelude.{◌≡◌};

pub mod end;

// A frame, known by its number among the frames of its way.
#[derive(Clone, Copy, PartialEq, Eq, Debug)]
pub struct Frame {
    pub number: u32,
}

// The two marks of BB_SC_N: a sender puts one after every 2^N frames or R_RDYs.
#[derive(Clone, Copy, PartialEq, Eq, Debug)]
pub enum Mark {
    BbScS,
    BbScR,
}

// What a link carries.
#[derive(Clone, Copy, PartialEq, Eq, Debug)]
pub enum Symbol {
    Frame(Frame),
    RRdy,
    Mark(Mark),
}

// A symbol without its frame: what a letter stands for.
#[derive(Clone, Copy, PartialEq, Eq, Debug)]
pub enum SymbolKind {
    Frame,
    RRdy,
    Mark(Mark),
}

// Whether a symbol arrives or was lost on its way.
#[derive(Clone, Copy, PartialEq, Eq, Debug)]
pub enum Note {
    Sound,
    Lost,
}

// A symbol in a channel.
#[derive(Clone, Copy, PartialEq, Eq, Debug)]
pub struct Item {
    pub symbol: Symbol,
    pub note: Note,
}

impl Symbol {
    pub fn kind(self) -> SymbolKind
        ensures { result ≡ kind_of self }
    {
        match self {
            Symbol::Frame(_) => SymbolKind::Frame,
            Symbol::RRdy => SymbolKind::RRdy,
            Symbol::Mark(mark) => SymbolKind::Mark(mark),
        }
    }
}

impl SymbolKind {
    // A byte, as records and pages have it: a From into a char would be cast at each use.
    pub fn letter(self) -> u8
        ensures { result ≡ letter self }
    {
        match self {
            SymbolKind::Frame => b'f',
            SymbolKind::RRdy => b'r',
            SymbolKind::Mark(Mark::BbScS) => b's',
            SymbolKind::Mark(Mark::BbScR) => b'c',
        }
    }
}

// A letter that stands for nothing that was asked after.
#[derive(Clone, Copy, PartialEq, Eq, Debug)]
pub struct UnknownLetter(pub char);

// The kind that has this letter.
impl TryFrom<char> for SymbolKind {
    type Error = UnknownLetter;

    ghost try_from_gives = { KindRead };

    fn try_from(letter: char) -> Result<Self, UnknownLetter> {
        match letter {
            'f' => Ok(SymbolKind::Frame),
            'r' => Ok(SymbolKind::RRdy),
            's' => Ok(SymbolKind::Mark(Mark::BbScS)),
            'c' => Ok(SymbolKind::Mark(Mark::BbScR)),
            _ => Err(UnknownLetter(letter)),
        }
    }
}

impl Item {
    pub fn noted_lost(self) -> Item
        ensures { result ≡ noted_lost self }
    {
        Item {
            note: Note::Lost,
            ..self
        }
    }
}
