// What a ring does with each of its values.
ghost use Rattle.ring.specs.Contents.{contents};
ghost use Rattle.ring.specs.Queue.{any};
ghost use Rattle.std.specs.Prelude.{◌≡◌, Bool, ◌++◌, filter, map};

use super::Ring;

// A closure in place of these three traits would need a `requires` on each call that takes it: a closure that is handed
// in may be called only where the contract says so.

// A value that can be counted down.
pub trait Countdown {
    ghost counted: { Self → Self };

    fn counted_down(&self) -> Self
        ensures { result ≡ counted self.now };
}

// A change of a value.
pub trait Change<T> {
    ghost changed: { Self → T → T };

    fn changed(&self, x: T) -> T
        ensures { result ≡ changed self.now x };
}

// A question about a value.
pub trait Test<T> {
    ghost passes: { Self → T → Bool };

    fn passes(&self, x: T) -> bool
        ensures { result ≡ passes self.now x };
}

impl<T: Copy + Countdown, const N: usize> Ring<T, N> {
    // Counts every value down, in one pass.
    #[tactic(auto, using(crate::proofs::Rings::passed_all, crate::proofs::Rings::passed_more))]
    pub fn count_down(&mut self)
        ensures { contents self.new ≡ map T.Countdown.counted (contents self.old) }
    {
        // By index: a mutable slice for each end of the array would take a loop each.
        for i in 0..self.len {
            let at = self.place(i);
            self.places[at] = self.places[at].counted_down();
        }
    }
}

impl<T: Copy, const N: usize> Ring<T, N> {
    // Changes every value in place.
    #[tactic(auto, using(crate::proofs::Rings::passed_all, crate::proofs::Rings::passed_more))]
    pub fn update<C: Change<T>>(&mut self, change: &C)
        ensures { contents self.new ≡ map (C.Change.changed change.now) (contents self.old) }
    {
        for i in 0..self.len {
            let at = self.place(i);
            self.places[at] = change.changed(self.places[at]);
        }
    }

    // The values up to the end of the array, and then those from its start on.
    fn as_slices(&self) -> (&[T], &[T])
        ensures { result.0.now ++ result.1.now ≡ contents self.now }
    {
        let places = &self.places[..];
        let (start, end) = places.split_at(self.head);
        let front = self.len.min(end.len());
        (&end[..front], &start[..self.len - front])
    }

    // Whether some value passes the test.
    pub fn any<Q: Test<T>>(&self, test: &Q) -> bool
        ensures { result ≡ any (Q.Test.passes test.now) (contents self.now) }
    {
        let (front, back) = self.as_slices();
        front.iter().chain(back).any(|x| test.passes(*x))
    }

    // Drops the values that do not pass the test; the others keep their order.
    pub fn retain<Q: Test<T>>(&mut self, test: &Q)
        ensures { contents self.new ≡ filter (Q.Test.passes test.now) (contents self.old) }
    {
        // Each value in turn comes out, and goes in again as the last if it is kept: no second array, and no heap.
        for _turn in 0..self.len {
            // Two tests: where a test of `if let .. && ..` fails, a proof does not learn which.
            if let Some(oldest) = self.pop() {
                if test.passes(oldest) {
                    let _ = self.push(oldest);
                }
            }
        }
    }
}
