//! Laws of existence, which follow from the definitions alone: some list of rows, alarms, totals or entries, some
//! settled text and some report always exist (in double negation). That there is at most one of each is a law of
//! `reports`, or of the crate that defines it. So no run ends out of memory because no report meets its definition. The
//! scenarios that can be read, to which the report of a run belongs, are in their ranges.
ghost use Rattle.laws.specs.Endings.{AskedInRange, ReadInRange, SomeEnding, SomeEndingOfRun, SomeSettledText};
ghost use Rattle.laws.specs.Findings.{SomeAlarms, SomeAuditRows, SomeTotals};
ghost use Rattle.laws.specs.Reasons.{SomeCanonicalList};

use meetings::laws::there_are_rows;

/// If every plan fails, a canonical list says why. The situation is in its ranges, as the contract of `plan_situations::prepare` says, and its
/// shape, if it has one, is a shape, as the type says.
pub fn some_canonical_list()
    ensures { SomeCanonicalList }
{
    there_are_rows();
}

/// The ticks of every audit have a list of rows. There is no premise.
pub fn some_audit_rows()
    ensures { SomeAuditRows }
{}

/// The ticks of every audit have a list of totals. There is no premise.
pub fn some_totals()
    ensures { SomeTotals }
{
    there_are_rows();
}

/// The ticks of every watch have a list of alarms. There is no premise.
pub fn some_alarms()
    ensures { SomeAlarms }
{}

/// Every prefix of a log settles a text, which may be empty. There is no premise.
pub fn some_settled_text()
    ensures { SomeSettledText }
{}

/// Each scenario that the bytes of a file mean for a mode has its values in their ranges, and own ship if the mode needs
/// her. So has each that a run asks about, also if its options give another window.
pub fn each_scenario_is_in_range()
    ensures read { ReadInRange }
    ensures asked { AskedInRange }
{}

/// A log that meets no refusal has a report, of each task. Such logs exist for each task: the tests of `run_rows` have
/// some. Clause `in_range` has a premise on the scenario, and `each_scenario_is_in_range` proves it of each scenario that
/// can be read. Clause `run` has no such premise: its scenario is the one that a run reads.
pub fn some_ending()
    ensures in_range { SomeEnding }
    ensures run { SomeEndingOfRun }
{
    there_are_rows();
}
