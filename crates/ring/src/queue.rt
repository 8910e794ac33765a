// A ring as a queue.
ghost use Rattle.ring.specs.Contents.{contents, place};
ghost use Rattle.ring.specs.Queue.{empty, head?, pushed, tail};
ghost use Rattle.std.specs.List.{slice_get};
ghost use Rattle.std.specs.Prelude.{◌≡◌, [], length, nat_lt};

use super::Ring;

impl<T: Copy, const N: usize> Ring<T, N> {
    // An empty ring, whose places hold `fill` until they are used.
    pub fn new(fill: T) -> Self
        ensures { contents result ≡ [] }
    {
        Ring {
            places: [fill; N],
            head: 0,
            len: 0,
        }
    }

    pub fn is_empty(&self) -> bool
        ensures { result ≡ empty (contents self.now) }
    {
        self.len() == 0
    }

    // The place of the i-th value.
    pub(crate) fn place(&self, i: usize) -> usize
        ensures { result ≡ place N self.now.head i }
    {
        let before_end = N - self.head;
        if i < before_end {
            self.head + i
        } else {
            i - before_end
        }
    }

    // Puts a value last; a full ring refuses.
    pub fn push(&mut self, x: T) -> bool
        ensures state { contents self.new ≡ pushed N (contents self.old) x }
        ensures answer { result ≡ nat_lt (length (contents self.old)) N }
    {
        if self.len >= N {
            return false;
        }
        let at = self.place(self.len);
        self.places[at] = x;
        self.len += 1;
        true
    }

    // The i-th value, the oldest being number 0.
    pub fn get(&self, i: usize) -> Option<T>
        ensures { result ≡ slice_get (contents self.now) i }
    {
        // by the length, since the values are no slice: they may pass the array's end
        if i >= self.len {
            return None;
        }
        let at = self.place(i);
        Some(self.places[at])
    }

    // The oldest value.
    pub fn first(&self) -> Option<T>
        ensures { result ≡ head? (contents self.now) }
    {
        self.get(0)
    }

    // Takes the oldest value out.
    pub fn pop(&mut self) -> Option<T>
        ensures state { contents self.new ≡ tail (contents self.old) }
        ensures answer { result ≡ head? (contents self.old) }
    {
        let oldest = self.first();
        // by the length: a proof does not learn from a `?` that a value stands there
        if self.len > 0 {
            self.head = self.place(1);
            self.len -= 1;
        }
        oldest
    }
}
