ghost use Rattle.std.specs.Prelude.{◌≡◌, ◌++◌, ◌+◌, IfOk, OnOk, map, reverse};
ghost use Rattle.jd_model.specs.Sequents.{sequent_view};
ghost use Rattle.jd_sequent.specs.Trees.{tree_of};
ghost use Rattle.jd_sequent.specs.Steps.{node_view};
ghost use Rattle.jd_sequent.specs.Obligations.{task_view};
ghost use Rattle.jd_sequent.specs.Rules.{LeadsWithinLimits};
ghost use Rattle.jd_replay.specs.Verdicts.{ClosedIsValid, IsRefusal, IsVerdict};

use crate::verdict::{Cause, Verdict};
use jd_base::NoMemory;
use jd_sequent::{Bad, RuleSet, ScriptTree, Sequent, Task};
use std::alloc::Global;

// Puts the premises on the stack, the first one on top.
fn push_premises(stack: &mut Vec<Sequent>, mut premises: Vec<Sequent>) -> Result<(), NoMemory>
    ensures { OnOk result (stack.new.items ≡ stack.old.items ++ reverse premises.items) }
{
    while let Some(sequent) = premises.pop() {
        stack.push(sequent)?;
    }
    Ok(())
}

// What a refusal of the rule means; want of memory is no verdict.
fn refused(bad: Bad, node: u64) -> Result<Verdict, NoMemory>
    ensures { IfOk result (λ verdict. IsRefusal bad node verdict) }
{
    match bad {
        Bad::NoMemory => Err(NoMemory),
        _ => Ok(Verdict::Bad {
            node,
            cause: Cause::Rule(bad),
        }),
    }
}

// The verdict on a goal that may be consumed.
fn replayed<R: RuleSet>(
    alloc: Global,
    rules: &R,
    task: &Task<'_>,
    goal: Sequent,
    script: &ScriptTree,
) -> Result<Verdict, NoMemory>
    requires { R.accepts rules.now (task_view task.now) (sequent_view goal) }
    ensures { IfOk result
        (λ verdict. IsVerdict (LeadsWithinLimits (R.instance rules.now (task_view task.now))) (R.cause rules.now (task_view task.now)) (tree_of (map node_view script.now.nodes.items)) (sequent_view goal) verdict) }
{
    let mut stack = Vec::new(alloc);
    let mut goals = Vec::new(alloc);
    let mut steps = 0u64;
    stack.push(goal)?;
    for (i, node) in script.nodes.iter().enumerate() {
        let Some(sequent) = stack.pop() else {
            unreachable!()
        };
        let Some(step) = &node.step else {
            goals.push(sequent)?;
            continue;
        };
        steps += 1;
        let premises = match rules.apply_to(alloc, task, sequent, step) {
            Ok(premises) => premises,
            Err(bad) => return refused(bad, steps),
        };
        let count = premises.len() as u32;
        if count != node.children {
            return Ok(Verdict::Bad {
                node: steps,
                cause: Cause::BranchCount {
                    script: node.children,
                    rule: count,
                },
            });
        }
        push_premises(&mut stack, premises)?;
    }
    if goals.is_empty() {
        Ok(Verdict::Closed { steps })
    } else {
        Ok(Verdict::Open { goals })
    }
}

/// Replays a script on a goal, step by step in preorder, with a stack of its own: the script's
/// nesting needs no machine stack.
pub fn replay<R: RuleSet>(
    alloc: Global,
    rules: &R,
    task: &Task<'_>,
    goal: &Sequent,
    script: &ScriptTree,
) -> Result<Verdict, NoMemory>
    requires { R.accepts rules.now (task_view task.now) (sequent_view goal.now) }
    ensures verdict { IfOk result
        (λ verdict. IsVerdict (LeadsWithinLimits (R.instance rules.now (task_view task.now))) (R.cause rules.now (task_view task.now)) (tree_of (map node_view script.now.nodes.items)) (sequent_view goal.now) verdict) }
    ensures closed { IfOk result (ClosedIsValid (task_view task.now) (sequent_view goal.now)) }
{
    let goal = goal.copy(alloc)?;
    replayed(alloc, rules, task, goal, script)
}
