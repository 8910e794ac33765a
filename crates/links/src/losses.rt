// Loss scripts by the number of their direction, to be filled before a bank is made with them.
ghost use Rattle.std.specs.Prelude.{◌≡◌, [], length, replicate};

use loss::script::{LossEntry, LossScript};

const DIRECTIONS: usize = 6;

// It has no model, as the scripts in it have none.
#[derive(Clone, Copy)]
pub struct Losses {
    // as many as the longest chain of script has, without a heap
    scripts: [LossScript; DIRECTIONS],
    ghost long: { length scripts ≡ 6 },
}

impl Losses {
    ghost use Rattle.links.specs.Losses.{directions_scripted, keeps_loss, losses_state, script_at, with_loss};
    ghost use Rattle.loss.specs.States.{script_state};

    // No losses.
    pub fn new() -> Self
        ensures { losses_state result ≡ replicate directions_scripted [] }
    {
        Losses {
            scripts: [LossScript::new(); DIRECTIONS],
        }
    }

    // Adds an entry to a direction's script; answers whether there is such a direction and its script kept it.
    pub fn add(&mut self, direction: u8, entry: LossEntry) -> bool
        ensures state { losses_state self.new
            ≡ with_loss (losses_state self.old) direction entry }
        ensures answer { result ≡ keeps_loss (losses_state self.old) direction }
    {
        // A proof learns nothing of what is written through `get_mut`, so the index is compared.
        let at = usize::from(direction);
        let scripts = &mut self.scripts;
        at < DIRECTIONS && scripts[at].add(entry)
    }

    // The script of a direction, empty where there is no such direction.
    pub fn script(&self, direction: u8) -> LossScript
        ensures { script_state result ≡ script_at (losses_state self.now) direction }
    {
        self.scripts
            .get(usize::from(direction))
            .copied()
            .unwrap_or_else(LossScript::new)
    }
}
