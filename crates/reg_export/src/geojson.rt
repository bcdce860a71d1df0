//! Rows as GeoJSON.

ghost use Rattle.std.specs.Prelude.{◌≡◌, ◌++◌, ◌||◌, ℕ, List, map, IfOk, OnOk, IfErr};
ghost use Rattle.std.specs.Global.{Vec};
ghost use Rattle.byte_io.specs.Whole.{WritesAll};
ghost use Rattle.crs_export.specs.Features.{listed, listed_behind, are_some};
ghost use Rattle.wkt_crs.specs.Definition.{IsCrsOf};
ghost use Rattle.reg_op.specs.Text.{printed};
ghost use Rattle.reg_report.specs.Seen.{row_seen};
ghost use Rattle.reg_export.specs.Titles.{Each};
ghost use Rattle.reg_export.specs.Geojson.{AreFeaturesOf, IsGeojson, BeginsWith, BeginsGeojson};
ghost use Rattle.reg_export.specs.Kept.{row_at};
ghost use Rattle.reg_export.specs.Written.{IsSoFar, IsCutShort, IsUnwritten};

use crate::title::title_of;
use crate::waiting::{finish, pass_enough};
use byte_io::Sink;
use crs_export::markup::{COLLECTION_END, COLLECTION_START};
use crs_export::{push_features, push_listed};
use crs_value::Crs;
use crs_value::search::usages_of;
use reg_engine::CliFault;
use reg_report::{Row, printed};
use std::alloc::{AllocError, Global};

// Appends the features of a row, whose printed id and reference system these are.
fn push_of(
    alloc: Global,
    made: &mut Vec<Vec<u8>>,
    row: &Row,
    entry: &[u8],
    crs: &Crs,
) -> Result<(), AllocError>
    requires entry { entry.now ≡ printed row.now.entry }
    requires crs { IsCrsOf crs.now (row_seen row.now).definition }
    ensures { OnOk result ((fs : List (List ℕ)) × AreFeaturesOf (row_seen row.now) fs × (map (λ (f : Vec ℕ). f.items) made.new.items ≡ map (λ (f : Vec ℕ). f.items) made.old.items ++ fs)) }
{
    let title = title_of(row, entry);
    push_features(alloc, made, &title, usages_of(crs.parts()))?;
    Ok(())
}

// The features of a row.
fn features_of(alloc: Global, row: &Row) -> Result<Vec<Vec<u8>>, AllocError>
    ensures { IfOk result (λ made. AreFeaturesOf (row_seen row.now) (map (λ (f : Vec ℕ). f.items) made.items)) }
{
    let entry = printed(alloc, row.entry)?;
    let crs = row.definition.crs(alloc)?;
    let mut made = Vec::new(alloc);
    push_of(alloc, &mut made, row, &entry, &crs)?;
    Ok(made)
}

// Appends the features of a row, behind others or as the first ones. The answer is whether there are features now.
fn push_row(alloc: Global, text: &mut Vec<u8>, behind: bool, row: &Row) -> Result<bool, AllocError>
    ensures { IfOk result (λ more. (fs : List (List ℕ)) × AreFeaturesOf (row_seen row.now) fs × (text.new.items ≡ text.old.items ++ listed_behind behind fs) × (more ≡ (behind || are_some fs))) }
{
    let features = features_of(alloc, row)?;
    push_listed(text, behind, &features)?;
    Ok(behind || !features.is_empty())
}

// Makes the features of the rows, and writes those that wait when they are enough. The answer is how many bytes were written so far.
fn write_rows<K: Sink>(
    alloc: Global,
    waiting: &mut Vec<u8>,
    rows: &[&Row],
    sink: &mut K,
) -> Result<usize, CliFault>
    ensures passed { IfOk result (λ total. (fs : List (List ℕ)) × Each AreFeaturesOf (map row_at rows.now) fs
        × IsSoFar (K.state sink.old) (waiting.old.items ++ listed fs) (K.state sink.new) waiting.new.items total) }
    ensures fault { IfErr result (IsCutShort (BeginsWith waiting.old.items) (map row_at rows.now) (K.state sink.old) (K.state sink.new)) }
{
    let mut behind = false;
    let mut written = 0usize;
    for row in rows {
        behind = match push_row(alloc, waiting, behind, *row) {
            Ok(more) => more,
            Err(_) => return Err(CliFault::Memory),
        };
        written = match pass_enough(waiting, written, sink) {
            Ok(total) => total,
            Err(fault) => return Err(fault),
        };
    }
    Ok(written)
}

/// Writes the rows as a collection of features: one for each usage with a bounding box. They are made and written in turn; if memory
/// runs out after the first byte, the output stops.
pub fn write_geojson<K: Sink>(alloc: Global, rows: &[&Row], sink: &mut K) -> Result<(), CliFault>
    ensures written { OnOk result ((text : List ℕ) × IsGeojson (map row_at rows.now) text × WritesAll text (K.state sink.old) (K.state sink.new)) }
    ensures fault { IfErr result (IsUnwritten BeginsGeojson (IsGeojson (map row_at rows.now)) (map row_at rows.now) (K.state sink.old) (K.state sink.new)) }
{
    let mut waiting = match COLLECTION_START.to_vec(alloc) {
        Ok(waiting) => waiting,
        Err(_) => return Err(CliFault::Memory),
    };
    let written = match write_rows(alloc, &mut waiting, rows, sink) {
        Ok(written) => written,
        Err(fault) => return Err(fault),
    };
    match finish(&mut waiting, COLLECTION_END, written, sink) {
        Ok(()) => Ok(()),
        Err(fault) => Err(fault),
    }
}
