// What the traits come to at the types in use, in numbers.
ghost use Rattle.bank.specs.States.{both};
ghost use Rattle.links.specs.Links.{first_letters};
ghost use Rattle.std.specs.Prelude.{◌≡◌, ◌≤◌, [], ◌∷◌};

use crate::{LossyRing, LossyWire, OneLink, ThreeLinks};
use bank::Bank;
use channel::Channel;
use loss::ScriptedLoss;
use std::array;

// The letters of scripted loss over a wire, over a delay ring, and over scripted loss over a wire.
pub fn kind_letters() -> [u8; 3]
    ensures { result ≡ 119 ∷ 100 ∷ 119 ∷ [] }
{
    [
        LossyWire::kind_letter(),
        LossyRing::kind_letter(),
        ScriptedLoss::<LossyWire>::kind_letter(),
    ]
}

// The count of a bank, and the letters at its first numbers.
fn letters<B: Bank, const N: usize>(bank: &B) -> (u8, [u8; N])
    requires { N ≤ 256 }
    ensures { result ≡ first_letters B.Bank.calls (B.Bank.model bank.now) N }
{
    (
        bank.count(),
        array::from_fn(|number| bank.letter(number as u8)),
    )
}

pub fn one_link_letters(bank: &OneLink) -> (u8, [u8; 2])
    ensures { result ≡ both 2 (119 ∷ 119 ∷ []) }
{
    letters::<_, 2>(bank)
}

pub fn three_links_letters(bank: &ThreeLinks) -> (u8, [u8; 6])
    ensures { result ≡ both 6 (119 ∷ 119 ∷ 100 ∷ 100 ∷ 119 ∷ 119 ∷ []) }
{
    letters::<_, 6>(bank)
}
