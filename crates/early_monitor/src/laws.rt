//! Laws of early answers, which follow from the definitions alone.
ghost use Rattle.std.specs.Prelude.{◌≡◌, ◌≢◌, ℕ, ◌+◌, ◌<◌, ◌++◌, length, take, List};
ghost use Rattle.mtl_formulas.specs.declared.verdict.Verdict.TheVariants.{No, Open};
ghost use Rattle.mtl_formulas.specs.FormulaTree.{FormulaTree};
ghost use Rattle.mtl_formulas.specs.FormulaMeasures.{HasValidParts, reach_of};
ghost use Rattle.mtl_formulas.specs.Traces.{Trace, value_in};
ghost use Rattle.traces.specs.Audited.{AuditNumbers, Sighting};
ghost use Rattle.traces.specs.Known.{IsKnown, Known};
ghost use Rattle.early_monitor.specs.Alarms.{AreAlarms, IsAlarm, tree_of_rule};
ghost use Rattle.early_monitor.specs.declared.alarm.Alarm.{Alarm};
ghost use Rattle.mtl_early.specs.Decided.{IsDecided};
ghost use Rattle.rule_program.specs.Lags.{lags_of};

pub use rule_program::laws::no_lags;

/// Some number of rows decides each value of Yes or No over a whole trace.
pub fn value_is_decided()
    ensures { (rows : Trace) (t : FormulaTree) (i : ℕ) → value_in rows t i ≢ Open
        → (m : ℕ) × IsDecided t rows i m }
{}

/// At most one number of rows decides a position.
pub fn decided_once()
    ensures { (rows : Trace) (t : FormulaTree) (i m n : ℕ) → IsDecided t rows i m
        → IsDecided t rows i n → m ≡ n }
{}

/// Further rows do not change a decided value.
pub fn decided_stays()
    ensures still { (rows more : Trace) (t : FormulaTree) (i m : ℕ) → IsDecided t rows i m
        → IsDecided t (rows ++ more) i m }
    ensures value { (rows : Trace) (t : FormulaTree) (i m : ℕ) → IsDecided t rows i m
        → value_in rows t i ≡ value_in (take m rows) t i }
{}

/// If the lag of No is the whole reach, exactly the rows that the formula reaches decide a No.
pub fn no_is_last()
    ensures { (rows : Trace) (t : FormulaTree) (i : ℕ) → HasValidParts t
        → (lags_of t).no ≡ reach_of t → value_in rows t i ≡ No
        → IsDecided t rows i (i + reach_of t + 1) }
{}

/// Each position of a trace at which a rule is No over the whole trace has exactly one alarm.
pub fn each_breach_has_one_alarm()
    ensures some { (numbers : AuditNumbers) (ticks : List Sighting) (known : Known) (rule at : ℕ)
        → IsKnown numbers ticks known → rule < length numbers.rules
        → value_in known.trace (tree_of_rule numbers.rules rule) at ≡ No
        → (alarm : Alarm) × IsAlarm numbers ticks alarm × (alarm.pair ≡ known.pair)
        × (alarm.rule ≡ rule) × (alarm.position ≡ known.start + at) }
    ensures one { (numbers : AuditNumbers) (ticks : List Sighting) (a b : Alarm)
        → IsAlarm numbers ticks a → IsAlarm numbers ticks b → a.pair ≡ b.pair → a.rule ≡ b.rule
        → a.position ≡ b.position → a ≡ b }
{}

/// The ticks of a watch have at most one list of alarms.
pub fn one_list_of_alarms()
    ensures { (numbers : AuditNumbers) (ticks : List Sighting) (alarms others : List Alarm)
        → AreAlarms numbers ticks alarms → AreAlarms numbers ticks others → alarms ≡ others }
{}
