//! Features in a collection.

ghost use Rattle.std.specs.Prelude.{◌≡◌, ◌++◌, ℕ, map, OnOk};
ghost use Rattle.std.specs.List.{flat_map};
ghost use Rattle.std.specs.Global.{Vec};
ghost use Rattle.crs_export.specs.Features.{after_comma, listed_behind};

use std::alloc::AllocError;

fn push_after(text: &mut Vec<u8>, feature: &[u8]) -> Result<(), AllocError>
    ensures { OnOk result (text.new.items ≡ text.old.items ++ after_comma feature.now) }
{
    text.push(b',')?;
    text.extend_from_slice(feature)?;
    Ok(())
}

fn push_others(text: &mut Vec<u8>, features: &[Vec<u8>]) -> Result<(), AllocError>
    ensures { OnOk result (text.new.items ≡ text.old.items ++ flat_map after_comma (map (λ (f : Vec ℕ). f.items) features.now)) }
{
    let mut rest = features;
    while let Some((feature, others)) = rest.split_first() {
        push_after(text, feature)?;
        rest = others;
    }
    Ok(())
}

/// Appends features of a collection, with commas: behind others, or as its first ones.
pub fn push_listed(text: &mut Vec<u8>, behind: bool, features: &[Vec<u8>]) -> Result<(), AllocError>
    ensures { OnOk result (text.new.items ≡ text.old.items ++ listed_behind behind (map (λ (f : Vec ℕ). f.items) features.now)) }
{
    if behind {
        return push_others(text, features);
    }
    let Some((first, others)) = features.split_first() else {
        return Ok(());
    };
    text.extend_from_slice(first)?;
    push_others(text, others)?;
    Ok(())
}
