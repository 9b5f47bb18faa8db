// The result of a run.
ghost use Rattle.std.specs.Prelude.{◌≡◌, List, IfOk, map};
ghost use Rattle.yalwythen_work.specs.Ends.{end_of, first_error};

use crate::audit_error::AuditError;
use crate::plans::Plans;
use crate::transact_error::TransactError;
use crate::worker_error::WorkerError;
use std::alloc::Global;
use std::sync::Wait;
use txc_chan::Decl;
use txc_table_audit::{Ranked, Transactions, audit_of, find_unmet_of};
use txc_txn::Report;
use txc_txn_check::Checked;

/// The transactions of all workers.
#[derive(Drop)]
struct AllPlans<'a>(&'a [Plans]);

impl Transactions for AllPlans<'_> {
    ghost use Rattle.std.specs.Prelude.{map};

    ghost plans = { λ all. map (λ seat. seat.kept) all.0.now };

    fn seats(&self) -> usize {
        self.0.len()
    }

    fn count(&self, seat: usize) -> usize {
        self.0[seat].len()
    }

    fn transaction(&self, seat: usize, number: usize) -> &Checked {
        self.0[seat].nth(number)
    }
}

/// Returns the first error in these results of workers. Skips `Stalled` if `with_stalls` is false.
fn first_error(ends: &[Result<(), TransactError>], with_stalls: bool) -> Option<WorkerError>
    ensures { result ≡ first_error with_stalls 0 ends.now }
{
    for worker in 0..ends.len() {
        if let Err(error) = ends[worker] {
            if with_stalls || !matches!(error, TransactError::Stalled(_)) {
                return Some(WorkerError { worker, error });
            }
        }
    }
    None
}

/// Combines these results of workers into one, as `RunOutcome::ended` specifies.
pub(crate) fn ended(ends: &[Result<(), TransactError>]) -> Result<(), WorkerError>
    ensures { result ≡ end_of ends.now }
{
    let found = match first_error(ends, false) {
        None => first_error(ends, true),
        own => own,
    };
    match found {
        Some(error) => Err(error),
        None => Ok(()),
    }
}

/// The result of a run of workers.
#[derive(Debug, Drop)]
pub struct RunOutcome<W> {
    /// All channels in their final state, and the receipts of each worker, by worker number.
    pub report: Report,
    /// The workers as they were when they ended, in the order in which they were passed to `run`.
    pub workers: Vec<W>,
    /// What each worker returned, in the same order as `workers`.
    pub ends: Vec<Result<(), TransactError>>,
    /// The transactions that each worker committed, in the same order as `workers`. The audit runs them again. A run
    /// without an audit has none.
    pub plans: Vec<Plans>,
}

impl<W> RunOutcome<W> {
    ghost use Rattle.std.specs.Prelude.{IfErr, MatchResult};
    ghost use Rattle.txc_txn_history.specs.OneOrder.{IsOneOrder};
    ghost use Rattle.txc_table_audit.specs.Conditions.{IsAuditable};
    ghost use Rattle.yalwythen_work.specs.Ran.{all_noted};
    ghost use Rattle.yalwythen_work.specs.Sound.{IsNoFault, IsUnmet};
    ghost use Rattle.txc_table_audit.specs.Ranks.{rank_of};
    ghost use Rattle.txc_txn_history.specs.Events.{Event};
    ghost use Rattle.yalwythen_work.specs.Ends.{end_of};

    /// Returns `Ok` if every worker returned `Ok`. Otherwise returns the error of the first worker, by number, whose
    /// error is not `Stalled`, because a worker that stalls may have waited for that worker. If all errors are
    /// `Stalled`, returns the first of them.
    pub fn ended(&self) -> Result<(), WorkerError>
        ensures { result ≡ end_of self.now.ends.items }
    {
        ended(self.ends.as_slice())
    }

    /// Runs all transactions again in one thread, in the order of their stamps. Returns that order if each transaction
    /// commits with the same receipt and all channels end as in the report.
    ///
    /// Fails with `Unmet` and the first condition that is not met if the report cannot be of these channels, or if the
    /// transactions were not noted. Fails with `Mismatch` if the report is not what one thread would have produced, or
    /// if allocation fails. It can spin, like a push to a broadcast channel.
    pub fn audit<R: Wait>(
        &self,
        rt: &R,
        alloc: Global,
        decls: &[Decl],
    ) -> Result<Vec<Ranked>, AuditError>
        ensures ok { IfOk result (λ ranks. (order : List Event)
            × (IsOneOrder decls.now (all_noted self.now.plans.items) self.now.report order
            × (ranks.items ≡ map rank_of order))) }
        ensures met { IfOk result (λ _. IsAuditable decls.now (all_noted self.now.plans.items) self.now.report) }
        ensures unmet { IfErr result (IsUnmet decls.now (all_noted self.now.plans.items) self.now.report) }
        ensures serial { (order : List Event)
            → IsOneOrder decls.now (all_noted self.now.plans.items) self.now.report order
            → MatchResult result (λ ranks. ranks.items ≡ map rank_of order) IsNoFault }
    {
        let plans = AllPlans(self.plans.as_slice());
        if let Some(condition) = find_unmet_of(decls, &self.report, &plans) {
            return Err(AuditError::Unmet(condition));
        }
        match audit_of(rt, alloc, decls, &self.report, &plans) {
            Ok(ranks) => Ok(ranks),
            Err(fault) => Err(AuditError::Mismatch(fault)),
        }
    }
}
