//! The words of a caller about a footer.
ghost use Rattle.std.specs.Prelude.{◌≢◌, IfErr, IfOk};
ghost use Rattle.vortex_parquet.specs.Records.{file_view};
ghost use Rattle.vortex_capi.specs.ParquetCalls.FooterPrunes as spec;
ghost use Rattle.vortex_capi.specs.declared.status.Status.TheVariants.{NoMemory};

use crate::fault::Refusal;
use crate::parquet::refusal::{of_footer, of_read};
use crate::sql::condition::{names_of, text_of};
use std::alloc::Global;
use vortex_parquet::columns::columns_of;
use vortex_parquet::records::{FileMetaData, file_of};
use vortex_predicates::FooterCondition;
use vortex_rewrite::rewrite::rules::Rules;

/// A footer's records, how many leaf columns it has, and a condition over them.
#[derive(Drop)]
pub(crate) struct Asked<'a> {
    pub(crate) file: FileMetaData<'a>,
    pub(crate) count: usize,
    pub(crate) condition: FooterCondition,
}

/// Returns what is asked of a footer, with proofs by built-in rules.
pub(crate) fn asked_of<'a>(
    alloc: Global,
    footer: &'a [u8],
    text: &[u8],
    flags: u8,
) -> Result<Asked<'a>, Refusal>
    ensures read { IfOk result (λ a. spec.IsAsked footer.now text.now flags (file_view a.file)
        a.count a.condition.leaves.items a.condition.condition) }
    ensures refused { IfErr result (λ r. r.status ≢ NoMemory
        → spec.IsAskRefusal footer.now text.now flags r) }
{
    let names = names_of(flags)?;
    let file = match file_of(alloc, footer) {
        Ok(file) => file,
        Err(error) => return Err(of_read(error)),
    };
    let columns = match columns_of(alloc, &file.schema) {
        Ok(columns) => columns,
        Err(error) => return Err(of_read(error)),
    };
    let text = text_of(text)?;
    let rules = Rules::builtin(alloc);
    match FooterCondition::try_new(alloc, &columns, text, names, &rules) {
        Ok(condition) => Ok(Asked {
            file,
            count: columns.leaves,
            condition,
        }),
        Err(error) => Err(of_footer(error)),
    }
}
