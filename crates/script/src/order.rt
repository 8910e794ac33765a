// The order in which commands may stand.
ghost use Rattle.script.specs.Order.{after, noted, nothing_read, one_more_lose, stage_after};
ghost use Rattle.std.specs.Prelude.{◌≡◌};

use crate::command::Command;
use crate::fault::Refusal;

// The most directions that a chain has, and the most loses for one of them.
const DIRECTIONS: usize = 6;

const LOSES: u8 = 16;

// How far a script has come.
#[derive(Clone, Copy, PartialEq, Eq, Debug)]
pub(crate) enum Stage {
    Bare,
    Cabled,
    Running,
    Draining,
}

// What the order of the commands to come depends on: the stage, the directions of the chain, and the loses of each.
#[derive(Clone, Copy, PartialEq, Eq, Debug)]
pub struct Progress {
    stage: Stage,
    pub(crate) directions: u8,
    // as many as a chain has at most, without a heap
    loses: [u8; DIRECTIONS],
}

impl Stage {
    // The stage after a command that may stand here.
    fn after(self, command: Command) -> Option<Stage>
        ensures { result ≡ stage_after self command }
    {
        match (self, command) {
            (Stage::Bare, Command::Chain(_)) => Some(Stage::Cabled),
            (Stage::Cabled, Command::Login { .. } | Command::Lose { .. }) => Some(Stage::Cabled),
            (
                Stage::Cabled | Stage::Running,
                Command::Inject { .. }
                | Command::Collect { .. }
                | Command::Step { .. }
                | Command::Page,
            ) => Some(Stage::Running),
            (Stage::Cabled | Stage::Running, Command::Drain) => Some(Stage::Draining),
            (Stage::Draining, Command::Collect { .. } | Command::Step { .. } | Command::Page) =>
                Some(Stage::Draining),
            _ => None,
        }
    }
}

impl Progress {
    // No command yet.
    pub fn new() -> Self
        ensures { result ≡ nothing_read }
    {
        Progress {
            stage: Stage::Bare,
            directions: 6,
            loses: [0; DIRECTIONS],
        }
    }

    // One more lose for a direction.
    fn lose(mut self, direction: u8) -> Result<Progress, Refusal>
        ensures { result ≡ one_more_lose direction self }
    {
        let d = usize::from(direction);
        match self.loses.get(d) {
            Some(&loses) if loses < LOSES => {
                // By index: what is written through get_mut is not known to a proof.
                self.loses[d] = loses + 1;
                Ok(self)
            }
            _ => Err(Refusal::TooManyLoses),
        }
    }

    // What a command adds at its stage.
    fn note(self, command: Command, stage: Stage) -> Result<Progress, Refusal>
        ensures { result ≡ noted command stage self }
    {
        let progress = Progress { stage, ..self };
        match command {
            Command::Chain(links) => Ok(Progress {
                directions: links.directions(),
                ..progress
            }),
            Command::Lose { direction, .. } => progress.lose(direction),
            _ => Ok(progress),
        }
    }

    // The progress after a command, or why it may not stand here.
    pub fn after(self, command: Command) -> Result<Progress, Refusal>
        ensures { result ≡ after self command }
    {
        let stage = self.stage.after(command).ok_or(Refusal::OutOfOrder)?;
        self.note(command, stage)
    }
}
