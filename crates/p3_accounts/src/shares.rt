//! What a metric is made of, line by line.

ghost use Rattle.std.specs.Prelude.{◌≡◌, ◌<◌, ◌^◌, ◌≤◌, OnErr, OnOk, pos};
ghost use Rattle.p3_base.specs.Outside.{IsPartlyPut, IsPut, Rose};
ghost use Rattle.p3_reports.specs.Parts.{quantity_text};
ghost use Rattle.p3_reports.specs.Pieces.{piece_text};
ghost use Rattle.p3_accounts.specs.Shares.{
  cost_share_line,
  ends_text,
  name_share_line,
  name_shares_text,
  quantity_line,
  share_line,
  shares_text,
};

use crate::share::{CostShare, NameShare, Shares};
use crate::terms::Terms;
use crate::words::name_of;
use p3_base::{Sink, SinkFailed};
use p3_reports::{Piece, Quantity, put_pieces};

/// Puts what a metric is made of.
pub fn put_shares<S: Sink>(
    shares: &Shares,
    terms: &Terms<'_>,
    out: &mut S,
) -> Result<(), SinkFailed>
    ensures ok { OnOk result (IsPut (shares_text terms.now.numbers.now shares.now)
        (S.seen out.old).written (S.seen out.new).written) }
    ensures partly { OnErr result (IsPartlyPut (shares_text terms.now.numbers.now shares.now)
        (S.seen out.old).written (S.seen out.new).written) }
    ensures failed { OnErr result (Rose (S.seen out.old).faults (S.seen out.new).faults) }
    ensures faults_grow { (S.seen out.old).faults ≤ (S.seen out.new).faults }
{
    put_quantity("base", shares.base, out)?;
    put_name_shares(shares.places, shares.names.items(), terms, out)?;
    put_cost_share(shares.places, shares.cost_places, &shares.cost, out)?;
    put_ends(shares, out)
}

/// Puts the line of a quantity.
fn put_quantity<S: Sink>(word: &str, quantity: Quantity, out: &mut S) -> Result<(), SinkFailed>
    ensures ok { OnOk result (IsPut (quantity_line word.now quantity)
        (S.seen out.old).written (S.seen out.new).written) }
    ensures partly { OnErr result (IsPartlyPut (quantity_line word.now quantity)
        (S.seen out.old).written (S.seen out.new).written) }
    ensures failed { OnErr result (Rose (S.seen out.old).faults (S.seen out.new).faults) }
    ensures faults_grow { (S.seen out.old).faults ≤ (S.seen out.new).faults }
{
    put_pieces(
        &[
            Piece::Text(word),
            Piece::Text(" "),
            Piece::Measured(quantity),
            Piece::Text("\n"),
        ],
        out,
    )
}

/// Puts a line for each name.
fn put_name_shares<S: Sink>(
    places: u32,
    shares: &[NameShare],
    terms: &Terms<'_>,
    out: &mut S,
) -> Result<(), SinkFailed>
    requires { places ≤ 6 }
    ensures ok { OnOk result (IsPut (name_shares_text terms.now.numbers.now places shares.now)
        (S.seen out.old).written (S.seen out.new).written) }
    ensures partly { OnErr result
        (IsPartlyPut (name_shares_text terms.now.numbers.now places shares.now)
        (S.seen out.old).written (S.seen out.new).written) }
    ensures failed { OnErr result (Rose (S.seen out.old).faults (S.seen out.new).faults) }
    ensures faults_grow { (S.seen out.old).faults ≤ (S.seen out.new).faults }
{
    for share in shares {
        put_name_share(places, share, terms, out)?;
    }
    Ok(())
}

/// Puts the line of a name.
fn put_name_share<S: Sink>(
    places: u32,
    share: &NameShare,
    terms: &Terms<'_>,
    out: &mut S,
) -> Result<(), SinkFailed>
    requires { places ≤ 6 }
    ensures ok { OnOk result (IsPut (name_share_line terms.now.numbers.now places share.now)
        (S.seen out.old).written (S.seen out.new).written) }
    ensures partly { OnErr result
        (IsPartlyPut (name_share_line terms.now.numbers.now places share.now)
        (S.seen out.old).written (S.seen out.new).written) }
    ensures failed { OnErr result (Rose (S.seen out.old).faults (S.seen out.new).faults) }
    ensures faults_grow { (S.seen out.old).faults ≤ (S.seen out.new).faults }
{
    let name = name_of(&terms.numbers.preferences, share.name);
    let weight = measured(places, share.weight as u128);
    let units = share.weight as u128 * share.count as u128;
    let product = measured(places, units);
    put_share(
        &Piece::Bytes(name),
        weight,
        &Piece::Number(share.count),
        product,
        out,
    )
}

/// Puts the line of the total cost.
fn put_cost_share<S: Sink>(
    places: u32,
    cost_places: u32,
    share: &CostShare,
    out: &mut S,
) -> Result<(), SinkFailed>
    requires few { places ≤ 6 }
    requires few_of_costs { cost_places ≤ 6 }
    ensures ok { OnOk result (IsPut (cost_share_line places cost_places share.now)
        (S.seen out.old).written (S.seen out.new).written) }
    ensures partly { OnErr result (IsPartlyPut (cost_share_line places cost_places share.now)
        (S.seen out.old).written (S.seen out.new).written) }
    ensures failed { OnErr result (Rose (S.seen out.old).faults (S.seen out.new).faults) }
    ensures faults_grow { (S.seen out.old).faults ≤ (S.seen out.new).faults }
{
    let weight = measured(places.saturating_sub(cost_places), share.weight as u128);
    let growth = measured(cost_places, share.growth);
    let product = measured(places, share.weight as u128 * share.growth);
    put_share(
        &Piece::Text("cost"),
        weight,
        &Piece::Measured(growth),
        product,
        out,
    )
}

/// Puts the line of a share: a weight, how often or how much it counts, and their product.
fn put_share<'x, S: Sink>(
    name: &Piece<'x>,
    weight: Quantity,
    count: &Piece<'x>,
    product: Quantity,
    out: &mut S,
) -> Result<(), SinkFailed>
    ensures ok { OnOk result (IsPut (share_line (piece_text name.now) (quantity_text weight)
        (piece_text count.now) (quantity_text product))
        (S.seen out.old).written (S.seen out.new).written) }
    ensures partly { OnErr result
        (IsPartlyPut (share_line (piece_text name.now) (quantity_text weight)
        (piece_text count.now) (quantity_text product))
        (S.seen out.old).written (S.seen out.new).written) }
    ensures failed { OnErr result (Rose (S.seen out.old).faults (S.seen out.new).faults) }
    ensures faults_grow { (S.seen out.old).faults ≤ (S.seen out.new).faults }
{
    put_pieces(
        &[
            *name,
            Piece::Text(": "),
            Piece::Measured(weight),
            Piece::Text(" * "),
            *count,
            Piece::Text(" = "),
            Piece::Measured(product),
            Piece::Text("\n"),
        ],
        out,
    )
}

/// Makes a quantity of so many units.
fn measured(places: u32, units: u128) -> Quantity
    requires few { places ≤ 6 }
    requires small { units < 2 ^ 127 }
    ensures places { result.places ≡ places }
    ensures units { result.units ≡ pos units }
{
    Quantity {
        places,
        units: units as i128,
    }
}

/// Puts what the shares come to.
fn put_ends<S: Sink>(shares: &Shares, out: &mut S) -> Result<(), SinkFailed>
    ensures ok { OnOk result (IsPut (ends_text shares.now)
        (S.seen out.old).written (S.seen out.new).written) }
    ensures partly { OnErr result (IsPartlyPut (ends_text shares.now)
        (S.seen out.old).written (S.seen out.new).written) }
    ensures failed { OnErr result (Rose (S.seen out.old).faults (S.seen out.new).faults) }
    ensures faults_grow { (S.seen out.old).faults ≤ (S.seen out.new).faults }
{
    put_quantity("loss", shares.loss, out)?;
    put_quantity("metric", shares.metric, out)
}
