//! What an expert would ask about the entries that a register has gained.

ghost use Rattle.std.specs.Prelude.{◌≡◌, false, List, IfOk};
ghost use Rattle.reg_lint.specs.Lines.{lint_sheet};
ghost use Rattle.reg_lint.specs.Subjects.{Subject, AreKept};
ghost use Rattle.reg_lint.specs.EngineEntered.{if_rows, IsEnteredText};

use crate::entered::entered_subjects;
use crate::kept::KeptSubject;
use crate::known::Known;
use crate::lines::{has_rows, lint_text};
use crate::rule::AnyRule;
use reg_state::Register;
use std::alloc::{AllocError, Global};

/// The rows, by these rules, of the entries that are not retired and that the earlier register has not; nothing if there are none.
/// Rules that look at an entry beside others look at these entries alone.
pub fn entered_text(
    alloc: Global,
    rules: &[AnyRule],
    earlier: &Register,
    later: &Register,
) -> Result<Vec<u8>, AllocError>
    ensures { IfOk result (λ text. IsEnteredText rules.now earlier.now later.now text.items) }
{
    let kept = entered_subjects(alloc, earlier, later)?;
    let text = all_rows(alloc, rules, &kept)?;
    Ok(if_rows(alloc, text))
}

// All rows, also those that were looked at before.
fn all_rows(alloc: Global, rules: &[AnyRule], kept: &[KeptSubject]) -> Result<Vec<u8>, AllocError>
    ensures { (subjects : List Subject) → AreKept kept.now subjects → IfOk result (λ text. text.items ≡ lint_sheet (λ mark. false) rules.now subjects) }
{
    let known = Known::none(alloc);
    let text = lint_text(alloc, &known, rules, kept)?;
    Ok(text)
}

fn if_rows(alloc: Global, text: Vec<u8>) -> Vec<u8>
    ensures { result.items ≡ if_rows text.items }
{
    if has_rows(&text) {
        return text;
    }
    Vec::new(alloc)
}
