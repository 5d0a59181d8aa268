//! The numbers that have to be multiples of others: the first that is none.
ghost use Rattle.std.specs.Prelude.{map};
ghost use Rattle.toml.specs.View.{table_view};
ghost use Rattle.machine_desc.specs.Description.{ratio_refusal, ratios_refusal};
ghost use Rattle.machine_desc.specs.Answers.{Answers, passed_unless};
ghost use Rattle.machine_desc.specs.Rows.{ratio_of};

use crate::document::integer_at;
use crate::keys::{Ratio, full_name};
use crate::{BadMachine, MachineFail};
use std::alloc::Global;
use toml::Table;

/// The first of the ratios that does not hold.
pub(crate) fn check_ratios(
    alloc: Global,
    document: &Table,
    ratios: &[Ratio],
) -> Result<(), MachineFail>
    ensures { Answers result
        (passed_unless (ratios_refusal (table_view document.now) (map ratio_of ratios.now))) }
{
    for ratio in ratios {
        check_ratio(alloc, document, ratio)?;
    }
    Ok(())
}

fn check_ratio(alloc: Global, document: &Table, ratio: &Ratio) -> Result<(), MachineFail>
    ensures { Answers result
        (passed_unless (ratio_refusal (table_view document.now) (ratio_of ratio.now))) }
{
    let number = integer_at(document, ratio.key.table, ratio.key.name);
    let divisor = integer_at(document, ratio.divisor.table, ratio.divisor.name);
    if number.is_multiple_of(divisor) {
        return Ok(());
    }
    let key = full_name(alloc, ratio.key.table, ratio.key.name)?;
    Err(MachineFail::Bad(BadMachine::Ratio { key }))
}
