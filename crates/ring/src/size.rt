// How full a ring is.
ghost use Rattle.std.specs.Prelude.{◌≡◌, ◌-◌, length};
ghost use Rattle.ring.specs.Contents.{contents};

use super::Ring;

impl<T: Copy, const N: usize> Ring<T, N> {
    // The values in it.
    pub fn len(&self) -> usize
        ensures { result ≡ length (contents self.now) }
    {
        self.len
    }

    // The places left.
    pub fn free(&self) -> usize
        ensures { result ≡ N - length (contents self.now) }
    {
        N - self.len()
    }
}
