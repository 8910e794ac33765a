// A ring whose values are changed in place.
ghost use Rattle.std.specs.Prelude.{◌-◌};

use ring::each::Change;

// Takes a number off, down to 0.
#[derive(Clone, Copy)]
struct Less(u32);

impl Change<u32> for Less {
    ghost changed = { λ t x. x - t.0 };

    fn changed(&self, x: u32) -> u32 {
        x.saturating_sub(self.0)
    }
}

#[cfg(test)]
mod tests {
    use super::*;
    use ring::Ring;
    use std::process::Abort;

    fn holds(rt: &impl Abort, ring: &mut Ring<u32, 4>, values: &[u32]) {
        for &value in values {
            assert_eq!(rt; ring.pop(), Some(value));
        }
        assert!(rt; ring.is_empty());
    }

    #[test]
    fn each_value_changes_where_it_stands(rt: HostRuntime) {
        let mut ring = Ring::new(9);
        for value in [1, 2, 3, 40] {
            assert!(rt; ring.push(value));
        }
        assert_eq!(rt; ring.pop(), Some(1));
        assert_eq!(rt; ring.pop(), Some(2));
        // These two stand at the start of the array.
        assert!(rt; ring.push(50) && ring.push(6));
        ring.update(&Less(5));
        holds(&rt, &mut ring, &[0, 35, 45, 1]);
    }

    #[test]
    fn what_is_pushed_later_does_not_change(rt: HostRuntime) {
        let mut ring = Ring::new(9);
        ring.update(&Less(1));
        assert!(rt; ring.push(7));
        ring.update(&Less(1));
        assert!(rt; ring.push(7));
        holds(&rt, &mut ring, &[6, 7]);
    }
}
