//! The obligation of each case, and that valid obligations carry the contracts.
#![tactic(auto)]

ghost use Rattle.jd_oblig.specs.CallGraphs.{CallsGiveReachability};
ghost use Rattle.jd_oblig.specs.ClosedTasks.{EveryClosedCaseIsKept};
ghost use Rattle.jd_oblig.specs.IdentityExample.{IdentityIsKept};
ghost use Rattle.jd_oblig.specs.KeptByObligations.{EveryCaseIsKept, ObligationsCarry, RowsMakeObligations};
ghost use Rattle.jd_oblig.specs.SkipExample.{SkipIsKept};

/// What is made of the row of tables that stand for a program is the obligation of the row's case.
pub fn rows_make_obligations()
    ensures { RowsMakeObligations }
{}

/// A valid obligation carries its case: to a depth of calls, or from the entry states of one measure.
pub fn obligations_carry()
    ensures { ObligationsCarry }
{}

/// If the obligation of every case is valid wherever the contracts that it may use are kept, every case is kept.
pub fn every_case_is_kept()
    ensures { EveryCaseIsKept }
{}

/// A test that decides which families the calls reach gives the order in which cases are proved.
pub fn calls_give_reachability()
    ensures { CallsGiveReachability }
{}

/// Where the obligation of each case is closed by sound steps, every case is kept.
pub fn every_closed_case_is_kept()
    ensures { EveryClosedCaseIsKept }
{}

/// The conditions can be met: a method that returns its parameter keeps its contract by this theorem.
pub fn identity_is_kept()
    ensures { IdentityIsKept }
{}

/// Another example: an instance method that does nothing keeps the invariant of its class.
pub fn skip_is_kept()
    ensures { SkipIsKept }
{}
