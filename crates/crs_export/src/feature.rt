//! Features of GeoJSON.

ghost use Rattle.std.specs.Prelude.{◌≡◌, ◌++◌, ℕ, map, IfOk, OnOk};
ghost use Rattle.std.specs.Global.{Vec};
ghost use Rattle.crs_export.specs.JsonQuotes.{quoted};
ghost use Rattle.crs_export.specs.Features.{of_entry, area_of, of_usage, feature, with_box, features};

use crate::geometry::push_geometry;
use crate::json_quotes::push_json;
use crate::markup::{
    BEFORE_AREA, BEFORE_AUTHORITY, BEFORE_CODE, BEFORE_ENTRY, BEFORE_NAME, BEFORE_SCOPE,
    BEFORE_STATUS, FEATURE_END, FEATURE_START, NULL,
};
use crate::title::Title;
use crs_part::{BoundingBox, Text, Usage};
use std::alloc::{AllocError, Global};

// Appends a name with its text.
fn push_field(text: &mut Vec<u8>, name: &[u8], value: &[u8]) -> Result<(), AllocError>
    ensures { OnOk result (text.new.items ≡ text.old.items ++ (name.now ++ quoted value.now)) }
{
    text.extend_from_slice(name)?;
    push_json(text, value)?;
    Ok(())
}

fn push_entry(text: &mut Vec<u8>, title: &Title<'_>) -> Result<(), AllocError>
    ensures { OnOk result (text.new.items ≡ text.old.items ++ of_entry title.now) }
{
    push_field(text, BEFORE_ENTRY, title.entry)?;
    push_field(text, BEFORE_AUTHORITY, title.authority)?;
    push_field(text, BEFORE_CODE, title.code)?;
    push_field(text, BEFORE_NAME, title.name)?;
    push_field(text, BEFORE_STATUS, title.status)?;
    Ok(())
}

fn push_area(text: &mut Vec<u8>, area: &Option<Text>) -> Result<(), AllocError>
    ensures { OnOk result (text.new.items ≡ text.old.items ++ area_of area.now) }
{
    match area {
        Some(area) => push_json(text, area.as_bytes()),
        None => text.extend_from_slice(NULL),
    }
}

fn push_usage(text: &mut Vec<u8>, usage: &Usage) -> Result<(), AllocError>
    ensures { OnOk result (text.new.items ≡ text.old.items ++ of_usage usage.now) }
{
    push_field(text, BEFORE_SCOPE, usage.scope.as_bytes())?;
    text.extend_from_slice(BEFORE_AREA)?;
    push_area(text, &usage.area)?;
    Ok(())
}

fn feature_text(
    alloc: Global,
    title: &Title<'_>,
    usage: &Usage,
    found: &BoundingBox,
) -> Result<Vec<u8>, AllocError>
    ensures { IfOk result (λ text. text.items ≡ feature title.now usage.now found.now) }
{
    let mut text = Vec::new(alloc);
    text.extend_from_slice(FEATURE_START)?;
    push_geometry(alloc, &mut text, found)?;
    push_entry(&mut text, title)?;
    push_usage(&mut text, usage)?;
    text.extend_from_slice(FEATURE_END)?;
    Ok(text)
}

fn push_feature(
    alloc: Global,
    made: &mut Vec<Vec<u8>>,
    title: &Title<'_>,
    usage: &Usage,
) -> Result<(), AllocError>
    ensures { OnOk result (map (λ (f : Vec ℕ). f.items) made.new.items ≡ map (λ (f : Vec ℕ). f.items) made.old.items ++ with_box title.now usage.now usage.now.bounding_box) }
{
    match &usage.bounding_box {
        Some(found) => {
            let text = feature_text(alloc, title, usage, found)?;
            made.push(text)?;
            Ok(())
        }
        None => Ok(()),
    }
}

/// Appends a feature for each usage with a bounding box.
pub fn push_features(
    alloc: Global,
    made: &mut Vec<Vec<u8>>,
    title: &Title<'_>,
    usages: &[Usage],
) -> Result<(), AllocError>
    ensures { OnOk result (map (λ (f : Vec ℕ). f.items) made.new.items ≡ map (λ (f : Vec ℕ). f.items) made.old.items ++ features title.now usages.now) }
{
    let mut rest = usages;
    while let Some((usage, others)) = rest.split_first() {
        push_feature(alloc, made, title, usage)?;
        rest = others;
    }
    Ok(())
}
