//! What a command makes of the texts that it read.

ghost use Rattle.std.specs.Prelude.{◌≡◌, ◌≢◌, ◌≤◌, IfErr, IfOk, IsTrue};
ghost use Rattle.p3_tree.specs.Commands.{row, sample_limit};
ghost use Rattle.p3_tree.specs.declared.command.CommandKind.TheVariants.{Watch};
ghost use Rattle.p3_reports.specs.Reports.{report_text};
ghost use Rattle.p3_cli.specs.Product.{ProducesBy, StopsBy};
ghost use Rattle.p3_cli.specs.Refusing.{IsRejectedBy};
ghost use Rattle.p3_cli.specs.Texts.{all_made, all_texts};

use crate::Ending;
use crate::embedding::embed;
use crate::evaluation::evaluate;
use crate::explaining::explain;
use crate::flattening::flat_translate;
use crate::lifting::lift;
use crate::sampling::sample;
use crate::texts::{Made, Texts};
use crate::translation::translate;
use p3_reports::Report;
use p3_tree::CommandKind;
use std::alloc::Global;

/// What a command makes: the texts that are written, and the report.
#[derive(Drop)]
pub(crate) struct Product {
    /// The texts of the outputs.
    pub(crate) made: Made,
    /// The report.
    pub(crate) report: Report,
}

/// Carries a command out on the texts that were read. One that puts lines while it works, as
/// `watch` does, is not carried out here. The texts are taken, so that they can go once they are read.
pub(crate) fn product_of(
    alloc: Global,
    kind: CommandKind,
    number: u32,
    texts: Texts,
) -> Result<Product, Ending>
    requires sampled { IsTrue (row kind).is_numbered → (1 ≤ number) × (number ≤ sample_limit) }
    requires at_the_end { kind ≢ Watch }
    ensures ok { IfOk result (λ product. ProducesBy kind number (all_texts texts)
        (all_made product.made) (report_text product.report)) }
    ensures err { IfErr result (IsRejectedBy (StopsBy kind number (all_texts texts))) }
{
    match kind {
        CommandKind::Compile => translate(alloc, texts),
        CommandKind::Lift => lift(alloc, &texts),
        CommandKind::Embed => embed(alloc, &texts),
        CommandKind::Evaluate => Ok(without_texts(alloc, evaluate(alloc, &texts)?)),
        CommandKind::Generate => sample(alloc, number),
        CommandKind::CompileFlat => flat_translate(alloc, &texts),
        CommandKind::Explain => Ok(without_texts(alloc, explain(alloc, &texts)?)),
        CommandKind::Watch => unreachable!(),
    }
}

/// Gives a report with no text.
fn without_texts(alloc: Global, report: Report) -> Product
    ensures { result.report ≡ report }
{
    Product {
        made: Made::none(alloc),
        report,
    }
}
