//! The tests of a search: a part of a text, the kind of a reference system, and a point in a bounding box.

mod area;
mod kind;
mod part;
mod point;
mod usages;

pub use area::is_in_area;
pub use kind::{Kind, is_of_kind};
pub use part::{has_part, is_alike};
pub use point::{Point, has_point};
pub use usages::usages_of;
