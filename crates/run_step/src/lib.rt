// One step of a sheet, made on the machine.
#![tactic(auto)]

pub mod steps;

ghost use Rattle.std.specs.Prelude.{◌≡◌, None};
ghost use Rattle.manager.specs.Answers.{outcome};
ghost use Rattle.machine.specs.Step.{loaded};
ghost use Rattle.sheet_codec.specs.Text.{shown_word};

use machine::Loaded;
use manager::{FrameOps, Refusal};

// What a step tells: its answer, and the word that it shows.
#[derive(Clone, Copy, Debug, PartialEq, Eq)]
pub struct Told {
    pub answer: Result<FrameOps, Refusal>,
    pub shown: Option<u32>,
}

impl From<Result<FrameOps, Refusal>> for Told {
    ghost from_gives = { λ a t. (outcome t.answer ≡ outcome a) × (t.shown ≡ None) };

    // An answer without a word.
    fn from(answer: Result<FrameOps, Refusal>) -> Told {
        Told {
            answer,
            shown: None,
        }
    }
}

impl From<Result<Loaded, Refusal>> for Told {
    ghost from_gives = { λ got t. (outcome t.answer ≡ (loaded got).outcome)
        × (t.shown ≡ shown_word (loaded got).word) };

    // What a read, or a word that a device takes, tells.
    fn from(got: Result<Loaded, Refusal>) -> Told {
        Told {
            answer: got.map(|loaded| loaded.operations),
            shown: got.ok().map(|loaded| loaded.word),
        }
    }
}
