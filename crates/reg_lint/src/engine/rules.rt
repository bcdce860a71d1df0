//! The rules that are looked at where none is named.

ghost use Rattle.std.specs.Prelude.{◌≡◌, filter, IfOk};
ghost use Rattle.reg_lint.specs.AnyRules.{is_usual};

use crate::rule::AnyRule;
use std::alloc::{AllocError, Global};

/// Those of the rules that are looked at where none is named, in order.
pub fn usual_of(alloc: Global, rules: &[AnyRule]) -> Result<Vec<AnyRule>, AllocError>
    ensures { IfOk result (λ usual. usual.items ≡ filter is_usual rules.now) }
{
    let mut usual = Vec::new(alloc);
    usual.extend_from_slice(rules)?;
    keep_usual(&mut usual);
    Ok(usual)
}

fn keep_usual(rules: &mut Vec<AnyRule>)
    ensures { rules.new.items ≡ filter is_usual rules.old.items }
{
    rules.retain(|rule| rule.is_usual());
}
