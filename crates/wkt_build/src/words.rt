//! Kinds of coordinate systems, and directions.

ghost use Rattle.std.specs.Prelude.{◌≤◌, length};
ghost use Rattle.crs_part.specs.Words.{direction_word, system_word};
ghost use Rattle.wkt_grammar.specs.declared.table.Takes.TheVariants as kinds;
ghost use Rattle.wkt_grammar.specs.Words.{is_cs_kind, is_direction};
ghost use Rattle.wkt_grammar.specs.Leaves.{DenotesWord};
ghost use Rattle.wkt_build.specs.Leaves.{TakesWord};

use crate::built::Built;
use crate::reader::Reader;
use crs_part::{Direction, SystemKind};
use std::alloc::{AllocError, Global};
use wkt_grammar::Takes;

fn take_kind(cursor: &mut Reader<'_>) -> SystemKind
    ensures takes { TakesWord is_cs_kind system_word cursor.old cursor.new result }
    ensures shorter { length cursor.new ≤ length cursor.old }
{
    let Some(token) = cursor.peek() else {
        return SystemKind::Vertical;
    };
    cursor.advance();
    match SystemKind::of_word(token.bytes) {
        Some(kind) => kind,
        None => SystemKind::Vertical,
    }
}

fn take_direction(cursor: &mut Reader<'_>) -> Direction
    ensures takes { TakesWord is_direction direction_word cursor.old cursor.new result }
    ensures shorter { length cursor.new ≤ length cursor.old }
{
    let Some(token) = cursor.peek() else {
        return Direction::Up;
    };
    cursor.advance();
    match Direction::of_word(token.bytes) {
        Some(direction) => direction,
        None => Direction::Up,
    }
}

impl Built<SystemKind> for SystemKind {
    ghost slot_kind = { kinds.CsKind };

    ghost Denotes = { DenotesWord system_word };

    fn kind() -> Takes {
        Takes::CsKind
    }

    fn build(alloc: Global, cursor: &mut Reader<'_>) -> Result<SystemKind, AllocError> {
        Ok(take_kind(cursor))
    }
}

impl Built<Direction> for Direction {
    ghost slot_kind = { kinds.Direction };

    ghost Denotes = { DenotesWord direction_word };

    fn kind() -> Takes {
        Takes::Direction
    }

    fn build(alloc: Global, cursor: &mut Reader<'_>) -> Result<Direction, AllocError> {
        Ok(take_direction(cursor))
    }
}
