// A chain is cabled, then running, then draining: each is a type of its own.
ghost use Rattle.model.specs.Run.{Moving as CanMove, Phase, is_draining, is_running, runs, drains};
ghost use Rattle.std.specs.Prelude.{◌≡◌};

use super::inner::Inner;

pub struct Chain<B, S> {
    pub(crate) inner: Inner<B>,
    pub(crate) state: S,
}

impl<B, S: Drop> Chain<B, S> {
    // The same chain in another state.
    pub(crate) fn in_state<T>(self, state: T) -> Chain<B, T>
        ensures { result.inner ≡ self.inner }
    {
        let Chain { inner, state: _ } = self;
        Chain { inner, state }
    }
}

#[derive(Clone, Copy)]
pub struct Cabled;

#[derive(Clone, Copy)]
pub struct Running;

#[derive(Clone, Copy)]
pub struct Draining;

// The states in which a chain steps, collects and releases.
pub trait Moving {
    ghost phase: { Phase };

    ghost moving: { CanMove phase };
}

impl Moving for Running {
    ghost phase = { is_running };

    ghost moving = { runs };
}

impl Moving for Draining {
    ghost phase = { is_draining };

    ghost moving = { drains };
}
