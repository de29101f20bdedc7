//! Which jumps leave a statement for what stands around it (JLS 14.15, 14.16).

ghost use Rattle.std.specs.Prelude.{◌≡◌, ◌∷◌, [], false, map, option_map};
ghost use Rattle.std.specs.List.{list_any};
ghost use Rattle.std.specs.Str.{bytes_eq};
ghost use Rattle.jd_bodies.specs.Jumps as plain;
ghost use Rattle.jd_effect_code.specs.Asking.{any_repeats, asked_view, asking, label_texts, one_label};
ghost use Rattle.jd_jcalls.specs.Handlers.{java_handler_view};
ghost use Rattle.jd_syntax.specs.JavaTrees.{java_handlers, java_stmt_view, java_stmts};
ghost use Rattle.jd_syntax.specs.JavaTypes.{identifier_view};

use jd_syntax::{Handler, Identifier, Stmt, StmtForm};

/// The labels that stand directly before a statement, the last of them first (JLS 14.7).
#[derive(Clone, Copy)]
pub enum Labels<'a> {
    /// None.
    Nothing,
    /// One behind others.
    Then(&'a Labels<'a>, &'a [u8]),
}

/// No label.
pub fn no_labels<'a>() -> Labels<'a>
    ensures { label_texts result ≡ [] }
{
    Labels::Nothing
}

/// One more label.
pub fn with_label<'a>(labels: &'a Labels<'a>, label: &'a [u8]) -> Labels<'a>
    ensures { label_texts result ≡ label.now ∷ label_texts labels.now }
{
    Labels::Then(labels, label)
}

/// Whether the label is one of these.
pub fn has_label(labels: &Labels<'_>, name: &[u8]) -> bool
    ensures { result ≡ list_any (λ x. bytes_eq x name.now) (label_texts labels.now) }
{
    match labels {
        Labels::Nothing => false,
        Labels::Then(others, label) => *label == name || has_label(others, name),
    }
}

/// Which jumps are asked for: `continue`, or else `break`; those without a label; and those with this one.
#[derive(Clone, Copy)]
struct Asked<'a> {
    repeats: bool,
    plain: bool,
    labelled: bool,
    label: &'a [u8],
}

// A jump is asked for by its label, or by having none.
fn is_asked(a: &Asked<'_>, l: &Option<Identifier>) -> bool
    ensures { result ≡ plain.is_asked (asked_view a.now) (option_map identifier_view l.now) }
{
    match l {
        None => a.plain,
        Some(l) => a.labelled && a.label == l.name.as_slice(),
    }
}

// Inside of a label.
fn in_label<'a>(a: &Asked<'a>, l: &[u8]) -> Asked<'a>
    ensures { asked_view result ≡ plain.in_label l.now (asked_view a.now) }
{
    if a.labelled && a.label == l {
        Asked {
            labelled: false,
            ..*a
        }
    } else {
        *a
    }
}

// Inside of a loop.
fn in_loop<'a>(a: &Asked<'a>) -> Asked<'a>
    ensures { asked_view result ≡ plain.in_loop (asked_view a.now) }
{
    Asked { plain: false, ..*a }
}

// Whether one stands in a statement, with its target outside.
#[cycle(jumps)]
fn jumps(s: &Stmt, a: &Asked<'_>) -> bool
    ensures { result ≡ plain.jumps (java_stmt_view s.now) (asked_view a.now) }
{
    match &s.form {
        StmtForm::Block(ss) => jumps_in(ss, a),
        StmtForm::Empty
        | StmtForm::Local(_, _)
        | StmtForm::Evaluate(_)
        | StmtForm::Return(_)
        | StmtForm::Throw(_)
        | StmtForm::Super(_) => false,
        StmtForm::Label(_, l, inner) => jumps(inner, &in_label(a, l)),
        StmtForm::If(_, inner) => jumps(inner, a),
        StmtForm::IfElse(_, first, second) => jumps(first, a) || jumps(second, a),
        StmtForm::While(_, _, inner) | StmtForm::For(_, _, _, _, inner) => {
            jumps(inner, &in_loop(a))
        }
        StmtForm::Break(l) => !a.repeats && is_asked(a, l),
        StmtForm::Continue(l) => a.repeats && is_asked(a, l),
        StmtForm::Try(ss, hs) => jumps_in(ss, a) || jumps_in_handlers(hs, a),
        StmtForm::TryFinally(ss, hs, fs) => {
            jumps_in(ss, a) || jumps_in_handlers(hs, a) || jumps_in(fs, a)
        }
    }
}

// In some of these.
#[cycle(jumps)]
fn jumps_in(ss: &[Stmt], a: &Asked<'_>) -> bool
    ensures { result ≡ plain.jumps_in (java_stmts (map java_stmt_view ss.now)) (asked_view a.now) }
{
    for s in ss {
        if jumps(s, a) {
            return true;
        }
    }
    false
}

// In some of the handlers.
#[cycle(jumps)]
fn jumps_in_handlers(hs: &[Handler], a: &Asked<'_>) -> bool
    ensures { result ≡ plain.jumps_in_handlers (java_handlers (map java_handler_view hs.now)) (asked_view a.now) }
{
    for h in hs {
        if jumps_in(&h.body, a) {
            return true;
        }
    }
    false
}

/// `break l` leaves the statement that is labelled so.
pub fn leaves_label(l: &[u8], s: &Stmt) -> bool
    ensures { result ≡ plain.leaves_label l.now (java_stmt_view s.now) }
{
    jumps(
        s,
        &Asked {
            repeats: false,
            plain: false,
            labelled: true,
            label: l,
        },
    )
}

/// `break` leaves the loop of this body.
pub fn leaves_loop(s: &Stmt) -> bool
    ensures { result ≡ plain.leaves_loop (java_stmt_view s.now) }
{
    jumps(
        s,
        &Asked {
            repeats: false,
            plain: true,
            labelled: false,
            label: b"",
        },
    )
}

// `continue` with this label goes on with a loop around the statement.
fn repeats_label(l: &[u8], s: &Stmt) -> bool
    ensures { result ≡ plain.jumps (java_stmt_view s.now) (asking false (one_label l.now)) }
{
    jumps(
        s,
        &Asked {
            repeats: true,
            plain: false,
            labelled: true,
            label: l,
        },
    )
}

// `continue` without a label, or with one of these.
fn repeats_any(labels: &Labels<'_>, s: &Stmt) -> bool
    ensures { result ≡ any_repeats (java_stmt_view s.now) (label_texts labels.now) }
{
    match labels {
        Labels::Nothing => jumps(
            s,
            &Asked {
                repeats: true,
                plain: true,
                labelled: false,
                label: b"",
            },
        ),
        Labels::Then(others, label) => repeats_label(label, s) || repeats_any(others, s),
    }
}

/// `continue` goes on with the loop of this body, or with that which has one of these labels.
pub fn repeats_loop(labels: &Labels<'_>, s: &Stmt) -> bool
    ensures { result ≡ plain.repeats_loop (label_texts labels.now) (java_stmt_view s.now) }
{
    repeats_any(labels, s)
}
