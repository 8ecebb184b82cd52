//! Requests about a log.
ghost use Rattle.std.specs.Prelude.{◌≡◌, MatchOption, false, true};
ghost use Rattle.tasks.specs.Modes.{needs_rows, reads_log};
ghost use Rattle.tasks.specs.Tasks.{says_why, task_by, task_mode, task_rows, task_seed};

use crate::mode::Mode;
use outside::Word;

/// A request about a log, with the inputs of each task besides the log.
#[derive(Drop)]
pub enum Task {
    /// Positions from the log.
    Points,
    /// An audit of the log.
    Audit,
    /// A plan for own ship.
    Plan {
        /// Whether the report says why every plan fails, if every plan fails.
        why: bool,
    },
    /// The totals of an audit of a made log.
    Drill {
        /// The seed of the log, 0 to 999999.
        seed: u32,
    },
    /// A check of rows with the reasons why there is no plan.
    Recheck {
        /// The name of the file with the rows, which may be empty.
        rows: Word,
    },
    /// The breaches of a log, each as soon as it is decided.
    Watch,
}

impl Task {
    /// Returns the task of a mode with the options that it needs; the others have no effect.
    pub fn of(mode: Mode, seed: u32, why: bool, rows: Word) -> Task
        ensures { result ≡ task_by mode seed why rows }
    {
        match mode {
            Mode::Points => {
                drop(rows);
                Task::Points
            }
            Mode::Audit => {
                drop(rows);
                Task::Audit
            }
            Mode::Plan => {
                drop(rows);
                Task::Plan { why }
            }
            Mode::Drill => {
                drop(rows);
                Task::Drill { seed }
            }
            Mode::Recheck => Task::Recheck { rows },
            Mode::Watch => {
                drop(rows);
                Task::Watch
            }
        }
    }

    /// Returns its kind.
    pub fn mode(&self) -> Mode
        ensures { result ≡ task_mode self.now }
    {
        match self {
            Task::Points => Mode::Points,
            Task::Audit => Mode::Audit,
            Task::Plan { .. } => Mode::Plan,
            Task::Drill { .. } => Mode::Drill,
            Task::Recheck { .. } => Mode::Recheck,
            Task::Watch => Mode::Watch,
        }
    }

    /// Returns whether the report says why every plan of own ship fails, if every plan fails.
    pub fn says_why(&self) -> bool
        ensures { result ≡ says_why self.now }
    {
        match self {
            Task::Plan { why } => *why,
            _ => false,
        }
    }

    /// Returns the seed of the log that the task makes, or `None` if it reads the given log.
    pub fn seed(&self) -> Option<u32>
        ensures { MatchOption result (reads_log (task_mode self.now) ≡ true)
            (λ seed. (reads_log (task_mode self.now) ≡ false) × (seed ≡ task_seed self.now)) }
    {
        match self {
            Task::Drill { seed } => Some(*seed),
            _ => None,
        }
    }

    /// Returns the name of the file with the rows that the task checks, or `None` if it checks none.
    pub fn rows(&self) -> Option<&Word>
        ensures { MatchOption result (needs_rows (task_mode self.now) ≡ false)
            (λ rows. (needs_rows (task_mode self.now) ≡ true)
            × (rows.now ≡ task_rows self.now)) }
    {
        match self {
            Task::Recheck { rows } => Some(rows),
            _ => None,
        }
    }
}
