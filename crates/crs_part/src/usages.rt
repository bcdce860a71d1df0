//! The usages of a reference system.

use crate::copies::{TryClone, three};
use crate::same::Same;
use crate::text::Text;
use crate::units::LengthUnit;
use crs_number::Decimal;
use std::alloc::{AllocError, Global};

/// The bounding box: two parallels and two meridians.
#[derive(Clone, Copy, Debug, PartialEq, Eq)]
pub struct BoundingBox {
    pub south: Decimal,
    pub west: Decimal,
    pub north: Decimal,
    pub east: Decimal,
}

/// The least and the greatest height, in the unit if there is one.
#[derive(Drop)]
pub struct VerticalExtent {
    pub low: Decimal,
    pub high: Decimal,
    pub unit: Option<LengthUnit>,
}

/// A scope, and its extent.
#[derive(Drop)]
pub struct Usage {
    pub scope: Text,
    pub area: Option<Text>,
    pub bounding_box: Option<BoundingBox>,
    pub vertical_extent: Option<VerticalExtent>,
}

impl TryClone for VerticalExtent {
    fn try_clone(&self, alloc: Global) -> Result<VerticalExtent, AllocError> {
        Ok(VerticalExtent {
            low: self.low,
            high: self.high,
            unit: self.unit.try_clone(alloc)?,
        })
    }
}

impl Same for VerticalExtent {
    fn same(&self, other: &VerticalExtent) -> bool {
        self.low.same(&other.low) && self.high.same(&other.high) && self.unit.same(&other.unit)
    }
}

impl TryClone for Usage {
    fn try_clone(&self, alloc: Global) -> Result<Usage, AllocError> {
        let (scope, area, vertical_extent) = three(
            alloc,
            &self.scope,
            &self.area,
            &self.vertical_extent,
        )?;
        Ok(Usage {
            scope,
            area,
            bounding_box: self.bounding_box,
            vertical_extent,
        })
    }
}

impl Same for Usage {
    fn same(&self, other: &Usage) -> bool {
        self.scope.same(&other.scope)
            && self.area.same(&other.area)
            && self.bounding_box.same(&other.bounding_box)
            && self.vertical_extent.same(&other.vertical_extent)
    }
}

impl Same for BoundingBox {
    fn same(&self, other: &BoundingBox) -> bool {
        self.south.same(&other.south)
            && self.west.same(&other.west)
            && self.north.same(&other.north)
            && self.east.same(&other.east)
    }
}
