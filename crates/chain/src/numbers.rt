// Ports by number.
ghost use Rattle.std.specs.Prelude.{◌≡◌, ◌<◌};
ghost use Rattle.model.specs.Chain.{behind, facing};

// The number of a port of the table, west to east from 0.
#[derive(Clone, Copy)]
pub(crate) struct PortNumber {
    pub(crate) number: u8,
    ghost in_table: { number < 16 },
}

impl PortNumber {
    // The other port of the link, which is also the direction that this port takes from.
    pub(crate) fn facing(self) -> PortNumber
        ensures { result.number ≡ facing self.number }
    {
        let number = if self.number % 2 == 0 {
            self.number + 1
        } else {
            self.number - 1
        };
        PortNumber { number }
    }

    // The port whose frames this one sends on. The last port has none.
    pub(crate) fn behind(self) -> PortNumber
        requires { self.number < 15 }
        ensures { result.number ≡ behind self.number }
    {
        let number = if self.number % 2 == 0 {
            self.number.saturating_sub(1)
        } else {
            self.number + 1
        };
        PortNumber { number }
    }
}
