//! Several formulas as one program.
ghost use Rattle.std.specs.Prelude.{◌≡◌, ◌≤◌, length};
ghost use Rattle.mtl_monitor.specs.Inner.Standing.{AllValid, AllValid-prop, AllBelow, AllBelow-prop, AllInside, AllInside-prop};
ghost use Rattle.mtl_monitor.specs.Inner.Reading.{AreReadable, AreReadable-prop};
ghost use Rattle.mtl_formulas.specs.declared.glance.Glance.TheVariants.{Nothing, Apart};
ghost use Rattle.mtl_monitor.specs.Inner.Triggers.{AreTriggers, AreTriggers-prop};
ghost use Rattle.mtl_monitor.specs.Inner.Keeping.{keepers_of};

use crate::building::{Operand, add};
use crate::idle::is_idle;
use crate::keeping::list_keepers;
use crate::node::{AtomNode, ProgramNode};
use crate::reading::list_atoms;
use crate::triggers::{Trigger, list_triggers};
use mtl_formulas::{Formula, Glance};
use out_of_memory::Memory;
use std::alloc::Global;

/// The formulas that are evaluated together over each trace. Equal parts of them exist once. The state of one trace is
/// a separate `TraceState`, so one program serves many traces.
#[derive(Drop)]
pub struct Program {
    pub(crate) nodes: Vec<ProgramNode>,
    pub(crate) roots: Vec<Operand>,
    pub(crate) reach: u32,
    pub(crate) atoms: Vec<AtomNode>,
    /// Those of them that are to be asked where the vessels are seen and apart.
    pub(crate) asked: Vec<AtomNode>,
    pub(crate) triggers: Vec<Trigger>,
    /// The indices of the nodes that keep something between rows, in order.
    pub(crate) keepers: Vec<usize>,
    /// Whether no formula's value depends on a distance or a bearing where the vessels are apart.
    pub(crate) idle: bool,
    ghost valid: { AllValid nodes.items } by { AllValid-prop nodes.items },
    ghost below: { AllBelow nodes.items } by { AllBelow-prop nodes.items },
    ghost inside: { AllInside (length nodes.items) roots.items } by { AllInside-prop (length nodes.items) roots.items },
    ghost reach_small: { reach ≤ 7200 },
    ghost readable: { AreReadable Nothing nodes.items (length nodes.items) atoms.items } by { AreReadable-prop Nothing nodes.items (length nodes.items) atoms.items },
    ghost askable: { AreReadable Apart nodes.items (length nodes.items) asked.items } by { AreReadable-prop Apart nodes.items (length nodes.items) asked.items },
    ghost triggered: { AreTriggers nodes.items triggers.items } by { AreTriggers-prop nodes.items triggers.items },
    ghost kept: { keepers.items ≡ keepers_of nodes.items },
}

impl Program {
    ghost use Rattle.std.specs.Prelude.{IfOk, List, [], ◌∷◌, ◌++◌, ◌+◌, ◌≢◌, true};
    ghost use Rattle.mtl_formulas.specs.FormulaTree.{FormulaTree, tree_of};
    ghost use Rattle.mtl_formulas.specs.FormulaMeasures.{IsValid};
    ghost use Rattle.mtl_monitor.specs.Following.{IsProgramOf, count_of};
    ghost use Rattle.mtl_monitor.specs.Reaches.{greatest_reach};
    ghost use Rattle.mtl_monitor.specs.Growing.{IsEmpty, GrowsBy};
    ghost use Rattle.mtl_monitor.specs.Inner.Idle.{AreAlike};
    ghost use Rattle.mtl_monitor.specs.Inner.Reading.{AreToBeRead};
    ghost use Rattle.mtl_formulas.specs.Glances.{IsTold};
    ghost use Rattle.mtl_formulas.specs.declared.atom.Atom.{Atom};
    ghost use Rattle.mtl_formulas.specs.declared.verdict.Verdict.{Verdict};

    /// Returns the program of no formula. It takes no memory.
    pub fn new(alloc: Global) -> Program
        ensures formulas { IsProgramOf result [] }
        ensures count { count_of result ≡ 0 }
        ensures empty { IsEmpty result }
    {
        Program {
            nodes: Vec::new(alloc),
            roots: Vec::new(alloc),
            reach: 0,
            atoms: Vec::new(alloc),
            asked: Vec::new(alloc),
            triggers: Vec::new(alloc),
            keepers: Vec::new(alloc),
            idle: true,
        }
    }

    /// Returns the program with a further formula, whose index is the number of those before it. At `Memory` all is
    /// dropped.
    pub fn with(self, formula: &Formula) -> Result<Program, Memory>
        requires { IsValid (tree_of formula.now) }
        ensures formulas { (formulas : List FormulaTree) → IsProgramOf self formulas →
            IfOk result (λ p. IsProgramOf p (formulas ++ tree_of formula.now ∷ [])) }
        ensures count { IfOk result (λ p. count_of p ≡ count_of self + 1) }
        // Equal programs with equal formulas are equal.
        ensures grows { IfOk result (λ p. GrowsBy self p (tree_of formula.now)) }
    {
        let Program {
            mut nodes,
            mut roots,
            reach,
            mut atoms,
            mut asked,
            mut triggers,
            mut keepers,
            idle,
        } = self;
        let asks_none = is_idle(true, formula);
        let root = add(&mut nodes, formula)?;
        list_atoms(&nodes, Glance::Nothing, &mut atoms)?;
        list_atoms(&nodes, Glance::Apart, &mut asked)?;
        list_triggers(&nodes, &mut triggers)?;
        list_keepers(&nodes, &mut keepers)?;
        match roots.push(root) {
            Ok(()) => Ok(Program {
                nodes,
                roots,
                reach: reach.max(root.late),
                atoms,
                asked,
                triggers,
                keepers,
                idle: idle & asks_none,
            }),
            Err(_) => Err(Memory),
        }
    }

    /// Returns the atoms to be read at a row, by what a glance gave for the row before and gives for this one.
    pub(crate) fn to_be_read(&self, before: Glance, now: Glance) -> &[AtomNode]
        ensures { AreToBeRead self.now.nodes.items self.now.atoms.items self.now.asked.items before
            now result.now }
    {
        match (before, now) {
            (Glance::Apart, Glance::Apart) => &self.asked,
            (Glance::Unseen, Glance::Unseen) | (Glance::Beyond, Glance::Beyond) => &[],
            _ => &self.atoms,
        }
    }

    /// Returns whether a row is alike to the row before, by what a glance gave for each: the vessels are unseen at both,
    /// or they stay apart, and distances and bearings change no formula's value.
    #[inline(always)]
    pub(crate) fn are_alike(&self, before: Glance, now: Glance) -> bool
        ensures shown { result ≡ true → before ≢ Nothing }
        ensures alike { result ≡ true → (row other : Atom → Verdict)
            → IsTold before row → IsTold now other → AreAlike self.now.idle row other }
    {
        match (before, now) {
            (Glance::Apart, Glance::Apart) => self.idle,
            (Glance::Unseen, Glance::Unseen) => true,
            _ => false,
        }
    }

    /// Returns the number of formulas.
    pub fn formula_count(&self) -> usize
        ensures count { result ≡ count_of self.now }
        ensures formulas { (formulas : List FormulaTree) → IsProgramOf self.now formulas
            → result ≡ length formulas }
    {
        self.roots.len()
    }

    /// How many positions ahead the farthest of the formulas looks, 0 to 7200.
    pub fn reach(&self) -> u32
        ensures small { result ≤ 7200 }
        ensures formulas { (formulas : List FormulaTree) → IsProgramOf self.now formulas
            → result ≡ greatest_reach formulas }
    {
        self.reach
    }
}
