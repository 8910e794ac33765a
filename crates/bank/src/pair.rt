// A pair of banks, the first one's numbers first.
ghost use Rattle.bank.specs.Bank.{count};
ghost use Rattle.bank.specs.Banks.{KeptApart, pair, route};
ghost use Rattle.bank.specs.States.{both, pair_state};
ghost use Rattle.std.specs.Prelude.{◌≡◌};
ghost use Rattle.bank.specs.PairLaws.{pair_lawful};

use crate::Bank;
use symbol::Item;

// No number from here on reaches a channel.
const MOST: u8 = u8::MAX;

#[derive(Drop)]
pub struct Pair<P, Q> {
    pub first: P,
    pub second: Q,
}

// Where a number of a pair leads.
// Each call matches on it: one function would take a closure for each bank, by `&` and again by `&mut`.
enum Route {
    First(u8),
    Second(u8),
    Nowhere,
}

impl<P: Bank, Q: Bank> Pair<P, Q> {
    pub fn new(first: P, second: Q) -> Self
        ensures state { pair_state P.Bank.model Q.Bank.model result
            ≡ both (P.Bank.model first) (Q.Bank.model second) }
        ensures apart { KeptApart P.Bank.calls Q.Bank.calls }
    {
        Pair { first, second }
    }

    fn route(&self, number: u8) -> Route
        ensures { result ≡ route (count P.Bank.calls (P.Bank.model self.now.first)) number }
    {
        let firsts = self.first.count();
        if number < firsts {
            Route::First(number)
        } else if number < MOST {
            Route::Second(number - firsts)
        } else {
            Route::Nowhere
        }
    }
}

impl<P: Bank, Q: Bank> Bank for Pair<P, Q> {
    ghost Model = { P.Bank.Model × Q.Bank.Model };

    ghost model = { pair_state P.Bank.model Q.Bank.model };

    ghost calls = { pair P.Bank.calls Q.Bank.calls };

    ghost lawful = { λ p.
        pair_lawful P.Bank.calls Q.Bank.calls p.0 p.1 (P.Bank.lawful p.0)
        (Q.Bank.lawful p.1) };

    fn count(&self) -> u8 {
        self.first.count().saturating_add(self.second.count())
    }

    fn letter(&self, number: u8) -> u8 {
        match self.route(number) {
            Route::First(k) => self.first.letter(k),
            Route::Second(k) => self.second.letter(k),
            Route::Nowhere => b'-',
        }
    }

    fn put(&mut self, number: u8, item: Item) -> bool {
        match self.route(number) {
            Route::First(k) => self.first.put(k, item),
            Route::Second(k) => self.second.put(k, item),
            Route::Nowhere => false,
        }
    }

    fn take(&mut self, number: u8) -> Option<Item> {
        match self.route(number) {
            Route::First(k) => self.first.take(k),
            Route::Second(k) => self.second.take(k),
            Route::Nowhere => None,
        }
    }

    fn step(&mut self) {
        self.first.step();
        self.second.step();
    }

    fn has_space(&self, number: u8) -> bool {
        match self.route(number) {
            Route::First(k) => self.first.has_space(k),
            Route::Second(k) => self.second.has_space(k),
            Route::Nowhere => false,
        }
    }

    fn is_idle(&self, number: u8) -> bool {
        match self.route(number) {
            Route::First(k) => self.first.is_idle(k),
            Route::Second(k) => self.second.is_idle(k),
            Route::Nowhere => true,
        }
    }
}
