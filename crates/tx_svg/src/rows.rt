// The rows of the picture of a code.
use crate::spot::{ROW, Spot, middle_of};
use std::alloc::Allocator;
use tx_plan::{CodeId, ExchangeId, Plan};
use tx_text::NoMemory;

/// How many exchanges are in each column.
pub(crate) fn count_boxes<A: Allocator + Copy>(
    alloc: A,
    columns: &[Option<u16>],
) -> Result<Vec<u16, A>, NoMemory> {
    let mut count: usize = 1;
    for column in columns {
        if let Some(column) = column {
            count = count.max(usize::from(*column) + 1);
        }
    }
    let mut boxes = vec![in alloc; 0u16; count]?;
    for column in columns {
        if let Some(column) = column {
            if let Some(boxes) = boxes.get_mut(usize::from(*column)) {
                *boxes = boxes.saturating_add(1);
            }
        }
    }
    Ok(boxes)
}

/// How high the columns are: as high as the one with the most boxes needs to be.
pub(crate) fn height_of(boxes: &[u16]) -> u16 {
    let mut most: u16 = 1;
    for count in boxes {
        most = most.max(*count);
    }
    u64::from(most).saturating_mul(ROW).min(65535) as u16
}

/// Where an exchange stands, if it has a place already.
pub(crate) fn spot_of(spots: &[Option<Spot>], exchange: ExchangeId) -> Option<Spot> {
    spots.get(exchange.index()).copied().flatten()
}

/// The mean height of those to which an exchange leads and which have a place, the home left out.
fn mean_height<A: Allocator>(
    plan: &Plan<A>,
    code: CodeId,
    exchange: ExchangeId,
    spots: &[Option<Spot>],
    high: u16,
) -> u64 {
    let mut sum = 0u64;
    let mut count = 0u64;
    for group in plan.list(exchange, code) {
        if let Some(to) = plan.other_end(*group, exchange) {
            if let Some(spot) = spot_of(spots, to) {
                if spot.column > 0 {
                    sum = sum.saturating_add(u64::from(spot.middle));
                    count = count.saturating_add(1);
                }
            }
        }
    }
    if count == 0 {
        u64::from(high) / 2
    } else {
        sum / count
    }
}

/// Gives the exchanges of a column their places, by the mean height of those to which they lead.
fn place_column<A: Allocator + Copy>(
    alloc: A,
    plan: &Plan<A>,
    code: CodeId,
    columns: &[Option<u16>],
    column: u16,
    high: u16,
    spots: &mut [Option<Spot>],
) -> Result<(), NoMemory> {
    let mut members = Vec::new(alloc);
    for index in 0..columns.len().min(plan.exchanges()) {
        if columns[index] == Some(column) {
            let exchange = ExchangeId::of(index);
            members.push((mean_height(plan, code, exchange, spots, high), index))?;
        }
    }
    members.sort_by_key(|member| member.0)?;
    let count = members.len() as u64;
    for (row, member) in members.iter().enumerate() {
        let middle = middle_of(row as u64, count, u64::from(high)).min(65535) as u16;
        if let Some(spot) = spots.get_mut(member.1) {
            *spot = Some(Spot { column, middle });
        }
    }
    Ok(())
}

/// Where each exchange that has a column stands, from the home on.
pub(crate) fn place_rows<A: Allocator + Copy>(
    alloc: A,
    plan: &Plan<A>,
    code: CodeId,
    columns: &[Option<u16>],
    last: u16,
    high: u16,
) -> Result<Vec<Option<Spot>, A>, NoMemory> {
    let mut spots = vec![in alloc; None; plan.exchanges()]?;
    for column in 0..=last {
        place_column(alloc, plan, code, columns, column, high, &mut spots)?;
    }
    Ok(spots)
}
