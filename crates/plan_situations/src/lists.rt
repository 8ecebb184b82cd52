//! The lists of a situation.
use crate::situation::Target;
use motion::TickState;
use std::marker::Model;

/// The states of a vessel at the ticks up to now: `None` if she was not seen. Their model is a list.
#[derive(Drop)]
pub struct Past {
    list: Vec<Option<TickState>>,
}

impl Model for Past {
    ghost use Rattle.std.specs.Prelude.{List, Option};
    ghost use Rattle.motion.specs.declared.leg.TickState.{TickState};

    ghost Value = { List (Option TickState) };

    ghost view = { λ p. p.list.items };
}

impl Past {
    ghost use Rattle.std.specs.Prelude.{◌≡◌};

    /// Returns the states of a list. This takes no memory.
    pub fn new(list: Vec<Option<TickState>>) -> Past
        ensures { result ≡ list.items }
    {
        Past { list }
    }

    /// Returns the list.
    pub fn as_slice(&self) -> &[Option<TickState>]
        ensures { result.now ≡ self.now }
    {
        self.list.as_slice()
    }
}

/// A vessel's states at the ticks from now. Their model is a list.
#[derive(Drop)]
pub struct Ahead {
    list: Vec<TickState>,
}

impl Model for Ahead {
    ghost use Rattle.std.specs.Prelude.{List};
    ghost use Rattle.motion.specs.declared.leg.TickState.{TickState};

    ghost Value = { List TickState };

    ghost view = { λ a. a.list.items };
}

impl Ahead {
    ghost use Rattle.std.specs.Prelude.{◌≡◌};

    /// Returns the states of a list. This takes no memory.
    pub fn new(list: Vec<TickState>) -> Ahead
        ensures { result ≡ list.items }
    {
        Ahead { list }
    }

    /// Returns the list.
    pub fn as_slice(&self) -> &[TickState]
        ensures { result.now ≡ self.now }
    {
        self.list.as_slice()
    }
}

/// The targets. Their model is a list.
#[derive(Drop)]
pub struct Targets {
    list: Vec<Target>,
}

impl Model for Targets {
    ghost use Rattle.std.specs.Prelude.{List};
    ghost use Rattle.plan_situations.specs.declared.situation.Target.{Target};

    ghost Value = { List Target };

    ghost view = { λ t. t.list.items };
}

impl Targets {
    ghost use Rattle.std.specs.Prelude.{◌≡◌};

    /// Returns the targets of a list. This takes no memory.
    pub fn new(list: Vec<Target>) -> Targets
        ensures { result ≡ list.items }
    {
        Targets { list }
    }

    /// Returns the list.
    pub fn as_slice(&self) -> &[Target]
        ensures { result.now ≡ self.now }
    {
        self.list.as_slice()
    }
}
