// Where the exchanges stand in the picture of a code.
ghost use Rattle.std.specs.Prelude.{◌≡◌, ◌<◌, length, IfOk};
ghost use Rattle.tx_rank.specs.Judged.{AreOrigins};

use crate::columns::{columns_by_distance, columns_by_rank};
use crate::ranks::is_graded;
use crate::rows::{count_boxes, height_of, place_rows, spot_of};
use crate::spot::{BOX, COLUMN, LEFT, Spot};
use std::alloc::{Allocator, Global};
use tx_plan::{CodeId, ExchangeId, Plan};
use tx_rank::Grade;
use tx_text::NoMemory;

/// The picture of a code: its exchanges in columns, with the home at the right. Of a code that has a
/// grade the columns are ranks, so each group leads to the right. Else they are the least numbers of
/// groups to the home.
pub struct Picture<A: Allocator = Global> {
    pub code: CodeId,
    spots: Vec<Option<Spot>, A>,
    /// How many boxes each column has.
    pub(crate) boxes: Vec<u16, A>,
    /// How high the columns are.
    pub high: u16,
}

impl<A: Allocator> Drop for Picture<A> {
    fn drop(self) {
        let Self {
            code: _,
            spots,
            boxes,
            high: _,
        } = self;
        drop(spots);
        drop(boxes);
    }
}

/// The picture of a code of a plan that has this grade.
pub fn picture_of<A: Allocator + Copy>(
    alloc: A,
    plan: &Plan<A>,
    grade: &Grade<A>,
    origins: &[bool],
    code: CodeId,
) -> Result<Picture<A>, NoMemory>
    requires code { code < length plan.now.codes }
    requires origins { AreOrigins plan.now origins.now }
    ensures { IfOk result (λ picture. picture.code ≡ code) }
{
    let columns = if is_graded(grade, code) {
        columns_by_rank(alloc, plan, code, &grade.ranks)?
    } else {
        columns_by_distance(alloc, plan, origins, code)?
    };
    let boxes = count_boxes(alloc, &columns)?;
    let high = height_of(&boxes);
    let last = boxes.len().saturating_sub(1).min(65535) as u16;
    let spots = place_rows(alloc, plan, code, &columns, last, high)?;
    Ok(Picture {
        code,
        spots,
        boxes,
        high,
    })
}

impl<A: Allocator> Picture<A> {
    /// Where an exchange stands; nowhere, if no calls come there.
    pub(crate) fn spot(&self, exchange: ExchangeId) -> Option<Spot> {
        spot_of(&self.spots, exchange)
    }

    /// How many boxes a column has.
    pub(crate) fn boxes_in(&self, column: u16) -> u64 {
        match self.boxes.get(usize::from(column)) {
            Some(count) => u64::from(*count),
            None => 0,
        }
    }

    /// How many columns there are.
    pub(crate) fn columns(&self) -> u16 {
        self.boxes.len().min(65535) as u16
    }

    /// The left edge of a column.
    pub(crate) fn left(&self, column: u16) -> u64 {
        let last = self.columns().saturating_sub(1);
        LEFT + u64::from(last.saturating_sub(column)) * COLUMN
    }

    /// The right edge of a column.
    pub(crate) fn right(&self, column: u16) -> u64 {
        self.left(column).saturating_add(BOX)
    }
}
