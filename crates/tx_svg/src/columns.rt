// The columns of the picture of a code.
ghost use Rattle.std.specs.Prelude.{◌<◌, length};
ghost use Rattle.tx_rank.specs.Judged.{AreOrigins};

use std::alloc::Allocator;
use tx_cert::Cert;
use tx_plan::{CodeId, ExchangeId, Plan};
use tx_rank::{is_marked, reached};
use tx_text::NoMemory;

/// The ranks that exchanges have for a code.
pub(crate) fn columns_by_rank<A: Allocator + Copy>(
    alloc: A,
    plan: &Plan<A>,
    code: CodeId,
    ranks: &Cert<A>,
) -> Result<Vec<Option<u16>, A>, NoMemory> {
    let mut columns = Vec::with_capacity(alloc, plan.exchanges())?;
    for index in 0..plan.exchanges() {
        columns.push(ranks.rank(code, ExchangeId::of(index)))?;
    }
    Ok(columns)
}

/// Whether a group in the list of an exchange leads into a column.
fn leads_into<A: Allocator>(
    plan: &Plan<A>,
    code: CodeId,
    exchange: ExchangeId,
    columns: &[Option<u16>],
    column: u16,
) -> bool {
    for group in plan.list(exchange, code) {
        if let Some(to) = plan.other_end(*group, exchange) {
            if columns.get(to.index()).copied().flatten() == Some(column) {
                return true;
            }
        }
    }
    false
}

/// Fills a column with the exchanges to which calls come, which have no column yet, and which lead
/// into the one before. Answers whether there are any.
fn fill_column<A: Allocator>(
    plan: &Plan<A>,
    code: CodeId,
    marks: &[bool],
    columns: &mut [Option<u16>],
    column: u16,
) -> bool
    requires { 0 < column }
{
    let mut filled = false;
    for index in 0..columns.len().min(plan.exchanges()) {
        let exchange = ExchangeId::of(index);
        if columns[index].is_none()
            && is_marked(marks, exchange)
            && leads_into(plan, code, exchange, columns, column - 1)
        {
            columns[index] = Some(column);
            filled = true;
        }
    }
    filled
}

/// The least numbers of groups to the home, for the exchanges to which calls come. Those that have
/// no way to it stand in one column more.
pub(crate) fn columns_by_distance<A: Allocator + Copy>(
    alloc: A,
    plan: &Plan<A>,
    origins: &[bool],
    code: CodeId,
) -> Result<Vec<Option<u16>, A>, NoMemory>
    requires code { code < length plan.now.codes }
    requires origins { AreOrigins plan.now origins.now }
{
    let marks = reached(alloc, plan, origins, code)?;
    let mut columns = vec![in alloc; None; plan.exchanges()]?;
    if let Some(home) = columns.get_mut(plan.home(code).index()) {
        *home = Some(0);
    }
    let mut column = 1;
    for next in 1..u16::MAX {
        column = next;
        if !fill_column(plan, code, &marks, &mut columns, next) {
            break;
        }
    }
    fill_last(&marks, &mut columns, column);
    Ok(columns)
}

/// Puts the exchanges to which calls come and which have no column into this one.
fn fill_last(marks: &[bool], columns: &mut [Option<u16>], column: u16) {
    for index in 0..columns.len() {
        if columns[index].is_none() && marks.get(index).copied().unwrap_or(false) {
            columns[index] = Some(column);
        }
    }
}
