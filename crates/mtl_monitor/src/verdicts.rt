//! The connectives over the three values.
ghost use Rattle.std.specs.Prelude.{◌≡◌};
ghost use Rattle.mtl_formulas.specs.VerdictOrder.{turned_round, least, greatest};
ghost use Rattle.mtl_formulas.specs.FormulaValue.{pair_value};
ghost use Rattle.mtl_monitor.specs.Inner.Steps.{sensed, same_verdict};

use mtl_formulas::{PairKind, SpanKind, Verdict};

/// Yes for No and No for Yes.
pub(crate) fn negated(value: Verdict) -> Verdict
    ensures { result ≡ turned_round value }
{
    match value {
        Verdict::No => Verdict::Yes,
        Verdict::Open => Verdict::Open,
        Verdict::Yes => Verdict::No,
    }
}

pub(crate) fn is_same(a: Verdict, b: Verdict) -> bool
    ensures { result ≡ same_verdict a b }
{
    a as u8 == b as u8
}

pub(crate) fn lesser(a: Verdict, b: Verdict) -> Verdict
    ensures { result ≡ least a b }
{
    if (a as u8) < b as u8 { a } else { b }
}

pub(crate) fn greater(a: Verdict, b: Verdict) -> Verdict
    ensures { result ≡ greatest a b }
{
    if (a as u8) < b as u8 { b } else { a }
}

pub(crate) fn joined(kind: PairKind, a: Verdict, b: Verdict) -> Verdict
    ensures { result ≡ pair_value kind a b }
{
    match kind {
        PairKind::And => lesser(a, b),
        PairKind::Or => greater(a, b),
        PairKind::Implies => greater(negated(a), b),
    }
}

/// Returns a value as the window of an operator sees it: the least value is the greatest of the values turned round,
/// turned round.
pub(crate) fn sensed(kind: SpanKind, value: Verdict) -> Verdict
    ensures { result ≡ sensed kind value }
{
    match kind {
        SpanKind::F | SpanKind::O => value,
        SpanKind::G | SpanKind::H => negated(value),
    }
}
