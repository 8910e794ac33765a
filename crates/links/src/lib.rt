// The banks of one link and of three, with scripted loss over every direction.
#![tactic(auto)]

ghost use Rattle.bank.specs.Bank.{AllIdle};
ghost use Rattle.bank.specs.States.{both};
ghost use Rattle.links.specs.Links.{link_state, one_link, one_link_state};
ghost use Rattle.links.specs.Links.{lossy_one_link, lossy_three_links};
ghost use Rattle.links.specs.Links.{three_links, three_links_state, three_state};
ghost use Rattle.links.specs.Losses.{losses_state, script_at};
ghost use Rattle.loss.specs.Loss.{started};
ghost use Rattle.loss.specs.States.{lossy_state};
ghost use Rattle.std.specs.Prelude.{◌≡◌, [], ◌∷◌};

pub mod losses;
pub mod pins;

use bank::Bank;
use bank::one::One;
use bank::pair::Pair;
use channel::Channel;
use channel::delay::DelayRing;
use channel::wire::Wire;
use loss::ScriptedLoss;
use losses::Losses;

pub type LossyWire = ScriptedLoss<Wire>;

pub type LossyRing = ScriptedLoss<DelayRing>;

// The direction east, then the one west.
pub type Link<C> = Pair<One<C>, One<C>>;

pub type OneLink = Link<LossyWire>;

pub type ThreeLinks = Pair<Link<LossyWire>, Pair<Link<LossyRing>, Link<LossyWire>>>;

// The delay of the rings in the middle of three links.
const DELAY: u16 = 5;

// A channel that loses what the script of a direction names.
fn lossy<C: Channel>(below: C, losses: &Losses, direction: u8) -> ScriptedLoss<C>
    ensures { lossy_state C.Channel.model result
        ≡ started (C.Channel.model below) (script_at (losses_state losses.now) direction) }
{
    ScriptedLoss::new(below, losses.script(direction))
}

fn link<C: Channel>(east: C, west: C) -> Link<C>
    ensures { link_state C.Channel.model result ≡ both (C.Channel.model east) (C.Channel.model west) }
{
    Pair::new(One { channel: east }, One { channel: west })
}

// Three banks, the westernmost one's numbers first.
fn three<P: Bank, Q: Bank, R: Bank>(west: P, middle: Q, east: R) -> Pair<P, Pair<Q, R>>
    ensures { three_state P.Bank.model Q.Bank.model R.Bank.model result
        ≡ both (P.Bank.model west) (both (Q.Bank.model middle) (R.Bank.model east)) }
{
    Pair::new(west, Pair::new(middle, east))
}

// A link of wires.
pub fn one_link(losses: &Losses) -> OneLink
    ensures state { one_link_state result ≡ lossy_one_link (script_at (losses_state losses.now)) }
    ensures letters { one_link.letters (one_link_state result) ≡ 119 ∷ 119 ∷ [] }
    ensures idle { AllIdle one_link (one_link_state result) }
{
    link(lossy(Wire::new(), losses, 0), lossy(Wire::new(), losses, 1))
}

// A link of wires, one of delay rings, and one of wires.
pub fn three_links(losses: &Losses) -> ThreeLinks
    ensures state { three_links_state result ≡ lossy_three_links (script_at (losses_state losses.now)) }
    ensures letters { three_links.letters (three_links_state result) ≡ 119 ∷ 119 ∷ 100 ∷ 100 ∷ 119 ∷ 119 ∷ [] }
    ensures idle { AllIdle three_links (three_links_state result) }
{
    let wire = |direction| lossy(Wire::new(), losses, direction);
    let ring = |direction| lossy(DelayRing::new(DELAY), losses, direction);
    three(
        link(wire(0), wire(1)),
        link(ring(2), ring(3)),
        link(wire(4), wire(5)),
    )
}
