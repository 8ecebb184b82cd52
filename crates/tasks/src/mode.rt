//! The kinds of tasks, and their inputs.
ghost use Rattle.std.specs.Prelude.{◌≡◌};
ghost use Rattle.tasks.specs.Modes.{needs_own, needs_rows, reads_log};

/// The kind of report on a log.
#[derive(Clone, Copy, Debug, PartialEq, Eq)]
pub enum Mode {
    /// Positions from a log, as points of the plane.
    Points,
    /// The meetings of a log's vessels, and the duties that were broken or stayed undecided.
    Audit,
    /// The first plan of own ship that newly breaks no rule and enters no domain.
    Plan,
    /// The totals of an audit of a log of forty vessels, made for the scenario.
    Drill,
    /// A check without a search whether rows give the right reasons why every plan of own ship fails.
    Recheck,
    /// Each breach of a rule at the first step that decides it, as soon as the log settles that step.
    Watch,
}

/// Returns whether the scenario must describe own ship.
pub fn needs_own(mode: Mode) -> bool
    ensures { result ≡ needs_own mode }
{
    matches!(mode, Mode::Plan | Mode::Recheck)
}

/// Returns whether the task checks rows with the reasons why there is no plan.
pub fn needs_rows(mode: Mode) -> bool
    ensures { result ≡ needs_rows mode }
{
    mode == Mode::Recheck
}

/// Returns whether the task reads the log that it is given. A drill makes its own.
pub fn reads_log(mode: Mode) -> bool
    ensures { result ≡ reads_log mode }
{
    mode != Mode::Drill
}
