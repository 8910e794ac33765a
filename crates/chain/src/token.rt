// A frame that was handed out at an end.
ghost use Rattle.std.specs.Prelude.{◌≡◌};

use symbol::Frame;
use symbol::end::End;

// Its buffer stays held until the token is released. A token cannot be let go: it is released or written off.
pub struct Token {
    pub(crate) end: End,
    pub(crate) frame: Frame,
}

impl Token {
    pub fn end(&self) -> End
        ensures { result ≡ self.now.end }
    {
        self.end
    }

    pub fn frame(&self) -> Frame
        ensures { result ≡ self.now.frame }
    {
        self.frame
    }

    // Spends the token without touching a chain: its buffer stays held.
    pub fn write_off(self) {
        let Token { end: _, frame: _ } = self;
    }
}
