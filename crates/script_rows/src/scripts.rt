//! Files of proof scripts, the proofs in them by their names, and trees of steps.

ghost use Rattle.std.specs.Prelude.{◌≤◌, length, map, IfOk};
ghost use Rattle.jd_scripts.specs.Scripts.{AreDistinct};

use crate::brackets::write_at;
use jd_base::{NoMemory, both, copy_bytes};
use jd_proofs::{ProofsRefusal, proofs_for};
use jd_script::{Proof, ScriptRefusal, parse_script};
use jd_script_print::print_script;
use jd_sequent::{ScriptNode, ScriptTree, Step, one_tree};
use jd_written::Written;
use std::alloc::Global;
use std::slice::from_ref;
use std::str::from_utf8;

// Writes a refusal and the name in it.
fn write_named(out: &mut Written, refusal: &[u8], name: &[u8]) -> Result<(), NoMemory> {
    out.word(refusal)?;
    out.word(name)
}

fn write_refusal(out: &mut Written, refusal: &ScriptRefusal) -> Result<(), NoMemory> {
    match refusal {
        ScriptRefusal::Version => out.word(b"Version"),
        ScriptRefusal::Syntax { at, .. } => write_at(out, b"Syntax", *at),
        ScriptRefusal::DuplicateProof { name } => write_named(out, b"DuplicateProof", name),
        ScriptRefusal::Truncated => out.word(b"Truncated"),
        ScriptRefusal::TooManyNodes => out.word(b"TooManyNodes"),
        ScriptRefusal::TooDeep { at, .. } => write_at(out, b"TooDeep", *at),
        ScriptRefusal::NoMemory => Err(NoMemory),
    }
}

// Writes a text; of a long one, how many bytes it has.
fn write_text(out: &mut Written, text: &[u8]) -> Result<(), NoMemory> {
    if text.len() <= 10_000 {
        return out.word(text);
    }
    out.number(text.len() as u64)?;
    out.word(b"bytes")
}

fn write_script(alloc: Global, out: &mut Written, proofs: &[Proof]) -> Result<(), NoMemory> {
    match &print_script(alloc, proofs) {
        Ok(text) => write_text(out, text),
        Err(NoMemory) => Err(NoMemory),
    }
}

/// The file of scripts that the text is, printed.
pub(crate) fn script(alloc: Global, out: &mut Written, text: &[u8]) -> Result<(), NoMemory>
    requires { length text.now ≤ 4294967295 }
{
    match &parse_script(alloc, text) {
        Ok(proofs) => write_script(alloc, out, proofs),
        Err(refusal) => write_refusal(out, refusal),
    }
}

// The names of three obligations.
fn three_names(alloc: Global) -> Result<Vec<Vec<u8>>, NoMemory>
    ensures { IfOk result (λ names. AreDistinct (map (λ n. n.items) names.items)) }
{
    let mut names = Vec::new(alloc);
    names.push(copy_bytes(alloc, b"A::f#1")?)?;
    names.push(copy_bytes(alloc, b"A::f#2")?)?;
    names.push(copy_bytes(alloc, b"B::g#1")?)?;
    Ok(names)
}

// Writes the rules of the nodes in preorder.
fn write_rules(out: &mut Written, nodes: &[ScriptNode]) -> Result<(), NoMemory> {
    for node in nodes {
        match &node.step {
            None => out.word(b"-")?,
            Some(step) => out.word(&step.rule)?,
        }
    }
    Ok(())
}

fn write_tree(out: &mut Written, tree: &Option<ScriptTree>) -> Result<(), NoMemory> {
    let Some(tree) = tree else {
        return out.word(b"none");
    };
    out.open()?;
    write_rules(out, &tree.nodes)?;
    out.close()
}

fn write_trees(out: &mut Written, trees: &[Option<ScriptTree>]) -> Result<(), NoMemory> {
    for tree in trees {
        write_tree(out, tree)?;
    }
    Ok(())
}

fn write_outcome(
    out: &mut Written,
    outcome: &Result<Vec<Option<ScriptTree>>, ProofsRefusal>,
) -> Result<(), NoMemory> {
    match outcome {
        Ok(trees) => write_trees(out, trees),
        Err(ProofsRefusal::File(refusal)) => write_refusal(out, refusal),
        Err(ProofsRefusal::UnknownObligation { name }) => {
            write_named(out, b"UnknownObligation", name)
        }
    }
}

/// The proofs of the three obligations in the file of scripts that the text is.
pub(crate) fn proofs(alloc: Global, out: &mut Written, text: &[u8]) -> Result<(), NoMemory>
    requires { length text.now ≤ 4294967295 }
{
    match &three_names(alloc) {
        Ok(names) => write_outcome(out, &proofs_for(alloc, names, text)),
        Err(NoMemory) => Err(NoMemory),
    }
}

// A step of the rule `r`.
fn new_step(alloc: Global) -> Result<Box<Step>, NoMemory> {
    let rule = copy_bytes(alloc, b"r")?;
    let step = Step {
        rule,
        place: None,
        assumes: Vec::new(alloc),
        insts: Vec::new(alloc),
    };
    Ok(Box::new(alloc, step)?)
}

// The number behind a word's first byte; 0 where there is none.
fn number_in(word: &[u8]) -> u32 {
    let Some(digits) = word.get(1..) else {
        return 0
    };
    match from_utf8(digits) {
        Ok(digits) => digits.parse::<u32>().unwrap_or(0),
        Err(_) => 0,
    }
}

// A step for a word that begins with `s`.
fn step_for(alloc: Global, word: &[u8]) -> Result<Option<Box<Step>>, NoMemory> {
    match word {
        [b's', ..] => match new_step(alloc) {
            Ok(step) => Ok(Some(step)),
            Err(error) => Err(error),
        },
        _ => Ok(None),
    }
}

// The node of a word, the number in which is that of its children.
fn node_for(alloc: Global, word: &[u8]) -> Result<ScriptNode, NoMemory> {
    let children = number_in(word);
    match step_for(alloc, word) {
        Ok(step) => Ok(ScriptNode { step, children }),
        Err(error) => Err(error),
    }
}

fn add<T: Drop>(all: &mut Vec<T>, made: Result<T, NoMemory>) -> Result<(), NoMemory> {
    all.push(made?)?;
    Ok(())
}

fn nodes_in(alloc: Global, text: &[u8]) -> Result<Vec<ScriptNode>, NoMemory> {
    let mut nodes = Vec::new(alloc);
    for word in text.split(|byte| *byte == b' ') {
        if !word.is_empty() {
            add(&mut nodes, node_for(alloc, word))?;
        }
    }
    Ok(nodes)
}

fn named(name: Vec<u8>, tree: Option<ScriptTree>) -> Option<Proof> {
    match tree {
        Some(tree) => Some(Proof { name, tree }),
        None => None,
    }
}

fn proof_of(alloc: Global, text: &[u8]) -> Result<Option<Proof>, NoMemory> {
    match both(copy_bytes(alloc, b"t"), nodes_in(alloc, text)) {
        Ok((name, nodes)) => Ok(named(name, one_tree(nodes))),
        Err(error) => Err(error),
    }
}

/// The tree whose nodes in preorder these are, printed as the proof `t`.
pub(crate) fn tree(alloc: Global, out: &mut Written, text: &[u8]) -> Result<(), NoMemory> {
    match &proof_of(alloc, text) {
        Ok(Some(proof)) => write_script(alloc, out, from_ref(proof)),
        Ok(None) => out.word(b"none"),
        Err(NoMemory) => Err(NoMemory),
    }
}
