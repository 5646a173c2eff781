//! Accounts of plans.

ghost use Rattle.std.specs.Prelude.{◌≤◌, OnErr, OnOk};
ghost use Rattle.p3_base.specs.Outside.{IsPartlyPut, IsPut, Rose};
ghost use Rattle.p3_accounts.specs.Accounts.{account_text, shares_by};
ghost use Rattle.p3_accounts.specs.Vocabularies.{vocabulary};

use crate::heading::Heading;
use crate::item::put_all;
use crate::share::Shares;
use crate::shares::put_shares;
use crate::terms::Terms;
use p3_base::{List, Sink, SinkFailed};
use p3_reports::{Fault, put_verdict};

/// Why a plan is not valid or costs what it costs.
#[derive(Debug, Drop)]
pub struct Account {
    /// Its first fault; none where it is valid.
    pub verdict: Option<Fault>,
    /// What shows it, in order.
    pub headings: List<Heading>,
    /// What its metric is made of, where its steps fit.
    pub shares: Option<Shares>,
}

/// Puts the account of a plan: its verdict, its headings, and what its metric is made of.
pub fn put_account<S: Sink>(
    account: &Account,
    terms: &Terms<'_>,
    out: &mut S,
) -> Result<(), SinkFailed>
    ensures ok { OnOk result (IsPut (account_text (vocabulary terms.now) account.now)
        (S.seen out.old).written (S.seen out.new).written) }
    ensures partly { OnErr result (IsPartlyPut (account_text (vocabulary terms.now) account.now)
        (S.seen out.old).written (S.seen out.new).written) }
    ensures failed { OnErr result (Rose (S.seen out.old).faults (S.seen out.new).faults) }
    ensures faults_grow { (S.seen out.old).faults ≤ (S.seen out.new).faults }
{
    put_verdict(&account.verdict, out)?;
    put_all(account.headings.items(), terms, out)?;
    put_shares_of(&account.shares, terms, out)
}

/// Puts what the metric is made of, where that is told.
fn put_shares_of<S: Sink>(
    shares: &Option<Shares>,
    terms: &Terms<'_>,
    out: &mut S,
) -> Result<(), SinkFailed>
    ensures ok { OnOk result (IsPut (shares_by (vocabulary terms.now) shares.now)
        (S.seen out.old).written (S.seen out.new).written) }
    ensures partly { OnErr result (IsPartlyPut (shares_by (vocabulary terms.now) shares.now)
        (S.seen out.old).written (S.seen out.new).written) }
    ensures failed { OnErr result (Rose (S.seen out.old).faults (S.seen out.new).faults) }
    ensures faults_grow { (S.seen out.old).faults ≤ (S.seen out.new).faults }
{
    match shares {
        None => Ok(()),
        Some(shares) => put_shares(shares, terms, out),
    }
}
