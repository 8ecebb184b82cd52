//! The predictions of other vessels.
use crate::changes::Changes;
use std::marker::Model;

/// The predicted changes of a vessel.
#[derive(Drop)]
pub struct Predict {
    /// Her MMSI.
    pub mmsi: u32,
    pub changes: Changes,
}

/// The predictions of at most 64 other vessels. Their model is a list.
#[derive(Drop)]
pub struct Predictions {
    list: Vec<Predict>,
}

impl Model for Predictions {
    ghost use Rattle.std.specs.Prelude.{List};
    ghost use Rattle.predictions.specs.declared.predictions.Predict.{Predict};

    ghost Value = { List Predict };

    ghost view = { λ s. s.list.items };
}

impl Predictions {
    ghost use Rattle.std.specs.Prelude.{◌≡◌};

    /// Returns the predictions of a list. This takes no memory.
    pub fn new(list: Vec<Predict>) -> Predictions
        ensures { result ≡ list.items }
    {
        Predictions { list }
    }

    pub fn as_slice(&self) -> &[Predict]
        ensures { result.now ≡ self.now }
    {
        self.list.as_slice()
    }
}
