ghost use Rattle.std.specs.Prelude.{◌≡◌, ◌<◌, ◌^◌, ℕ, List, All, map, length, MatchResult};
ghost use Rattle.jd_model.specs.Sequents.{PlainSequent, sequent_view};
ghost use Rattle.jd_sequent.specs.Trees.{PlainStep};
ghost use Rattle.jd_sequent.specs.Steps.{step_view};
ghost use Rattle.jd_sequent.specs.Obligations.{PlainTask, task_view};
ghost use Rattle.jd_sequent.specs.Rules.{IsCaused, LeadsWithinLimits};
ghost use Rattle.jd_sequent.specs.TaskMeaning.{StepIsSound};

use crate::bad::Bad;
use crate::script::Step;
use crate::task::Task;
use jd_model::Sequent;
use std::alloc::Global;

/// A rule, or a table of them: which steps are instances, and what they lead to. A set of rules is made of such.
pub trait Rule {
    /// The sequents that `apply` takes.
    ghost accepts: { Self → PlainTask → PlainSequent → Type 0 };

    /// A step is an instance of the rule, and leads to these premises.
    ghost instance: { Self → PlainTask → PlainSequent → PlainStep → List PlainSequent → Type 0 };

    /// The cause with this number holds of a step; the first says that the step names another rule.
    ghost cause: { Self → PlainTask → PlainSequent → PlainStep → ℕ → Type 0 };

    /// The premises of a step. `Ok` exactly where it is an instance whose premises are within the
    /// limits; a refusal names the least cause that holds.
    fn apply(
        &self,
        alloc: Global,
        task: &Task<'_>,
        sequent: &Sequent,
        step: &Step,
    ) -> Result<Vec<Sequent>, Bad>
        requires { accepts self.now (task_view task.now) (sequent_view sequent.now) }
        ensures { MatchResult result
            (λ premises. LeadsWithinLimits (instance self.now (task_view task.now)) (sequent_view sequent.now) (step_view step.now) (map sequent_view premises.items))
            (λ bad. IsCaused (cause self.now (task_view task.now) (sequent_view sequent.now) (step_view step.now)) bad) };

    /// An instance is sound: in each program that the task's tables stand for, at each depth and measure
    /// at which the contracts are usable, the sequent is valid where the premises are.
    ghost sound: { (r : Self) (t : PlainTask) (s : PlainSequent) (p : PlainStep) (ps : List PlainSequent) → accepts r t s → instance r t s p ps → StepIsSound t s ps };

    /// The premises of an instance are taken again, where they are within the limits.
    ghost keeps: { (r : Self) (t : PlainTask) (s : PlainSequent) (p : PlainStep) (ps : List PlainSequent) → accepts r t s → LeadsWithinLimits (instance r t) s p ps → All (accepts r t) ps };

    /// An instance whose premises are within the limits has no cause.
    ghost has_no_cause: { (r : Self) (t : PlainTask) (s : PlainSequent) (p : PlainStep) (ps : List PlainSequent) (n : ℕ) → LeadsWithinLimits (instance r t) s p ps → cause r t s p n → ⊥ };

    /// The premises are determined.
    ghost one_way: { (r : Self) (t : PlainTask) (s : PlainSequent) (p : PlainStep) (ps qs : List PlainSequent) → instance r t s p ps → instance r t s p qs → ps ≡ qs };

    /// The premises can be counted by a `u32`.
    ghost few: { (r : Self) (t : PlainTask) (s : PlainSequent) (p : PlainStep) (ps : List PlainSequent) → instance r t s p ps → length ps < 2 ^ 32 };
}

/// A set of rules, each found by its name. Code above is generic over it and proved once.
pub trait RuleSet {
    /// The sequents that `apply` takes.
    ghost accepts: { Self → PlainTask → PlainSequent → Type 0 };

    /// A step is an instance of the rule that it names, and leads to these premises.
    ghost instance: { Self → PlainTask → PlainSequent → PlainStep → List PlainSequent → Type 0 };

    /// The cause with this number holds of a step.
    ghost cause: { Self → PlainTask → PlainSequent → PlainStep → ℕ → Type 0 };

    /// The premises of a step. `Ok` exactly where it is an instance whose premises are within the
    /// limits; a refusal names the least cause that holds.
    fn apply(
        &self,
        alloc: Global,
        task: &Task<'_>,
        sequent: &Sequent,
        step: &Step,
    ) -> Result<Vec<Sequent>, Bad>
        requires { accepts self.now (task_view task.now) (sequent_view sequent.now) }
        ensures { MatchResult result
            (λ premises. LeadsWithinLimits (instance self.now (task_view task.now)) (sequent_view sequent.now) (step_view step.now) (map sequent_view premises.items))
            (λ bad. IsCaused (cause self.now (task_view task.now) (sequent_view sequent.now) (step_view step.now)) bad) };

    /// The same where the sequent is no longer wanted: a set of rules may move what the step leaves as it is.
    fn apply_to(
        &self,
        alloc: Global,
        task: &Task<'_>,
        sequent: Sequent,
        step: &Step,
    ) -> Result<Vec<Sequent>, Bad>
        requires { accepts self.now (task_view task.now) (sequent_view sequent) }
        ensures { MatchResult result
            (λ premises. LeadsWithinLimits (instance self.now (task_view task.now)) (sequent_view sequent) (step_view step.now) (map sequent_view premises.items))
            (λ bad. IsCaused (cause self.now (task_view task.now) (sequent_view sequent) (step_view step.now)) bad) }
    {
        self.apply(alloc, task, &sequent, step)
    }

    /// An instance is sound: in each program that the task's tables stand for, at each depth and measure
    /// at which the contracts are usable, the sequent is valid where the premises are.
    ghost sound: { (r : Self) (t : PlainTask) (s : PlainSequent) (p : PlainStep) (ps : List PlainSequent) → accepts r t s → instance r t s p ps → StepIsSound t s ps };

    /// The premises of an instance are taken again, where they are within the limits.
    ghost keeps: { (r : Self) (t : PlainTask) (s : PlainSequent) (p : PlainStep) (ps : List PlainSequent) → accepts r t s → LeadsWithinLimits (instance r t) s p ps → All (accepts r t) ps };

    /// An instance whose premises are within the limits has no cause.
    ghost has_no_cause: { (r : Self) (t : PlainTask) (s : PlainSequent) (p : PlainStep) (ps : List PlainSequent) (n : ℕ) → LeadsWithinLimits (instance r t) s p ps → cause r t s p n → ⊥ };

    /// The premises are determined.
    ghost one_way: { (r : Self) (t : PlainTask) (s : PlainSequent) (p : PlainStep) (ps qs : List PlainSequent) → instance r t s p ps → instance r t s p qs → ps ≡ qs };

    /// The premises can be counted by a `u32`.
    ghost few: { (r : Self) (t : PlainTask) (s : PlainSequent) (p : PlainStep) (ps : List PlainSequent) → instance r t s p ps → length ps < 2 ^ 32 };
}
