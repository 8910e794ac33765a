// What holds of every run, and of some runs that were worked out, on the contracts of functions that anybody can call.

ghost use Rattle.model.specs.Laws.{EveryRun};
ghost use Rattle.model.specs.Sizes.{CallsFit};
ghost use Rattle.model.specs.Worked.{LossTable, SixSteps, SixteenMissing, ThreeMadeGood};

use bank::Bank;

// Whatever calls follow the cabling of this bank, the four laws hold after each of them: credit sum, whole parts,
// one place, and records tell the port.
pub fn laws_of_every_run<B: Bank>(bank: &B)
    ensures { EveryRun B.Bank.calls (B.Bank.model bank.now) }
{}

// An accepted call writes no more bytes than it asks for.
pub fn calls_fit<B: Bank>(_bank: &B)
    ensures { CallsFit B.Bank.calls }
{}

// A lost frame that is made good, by its page and its records; three of sixteen lost on the middle of three links,
// and made good; sixteen lost between two marks, and missing for good.
pub fn worked_runs()
    ensures six_steps { SixSteps }
    ensures three { ThreeMadeGood }
    ensures sixteen { SixteenMissing }
{}

// What a mark finds lost, for some N and frames got.
pub fn loss_table()
    ensures { LossTable }
{}
