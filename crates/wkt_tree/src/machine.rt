//! The tokens that may come next, given the open delimiters.

ghost use Rattle.std.specs.Prelude.{◌≡◌, Some, None, IfOk, IfErr, OnErr, IfSome, IfNone};
ghost use Rattle.wkt_tree.specs.Machine.{closed, comma, refusal, state, step_at};

use crate::fault::TextFault;
use crate::stack::Stack;
use crate::token::{Delimiter, TokenKind};

/// The last part read, as far as it decides which tokens may come next.
#[derive(Clone, Copy, Debug, PartialEq, Eq)]
pub(crate) enum Phase {
    /// An item has to come.
    Begin,
    /// A word came, which an opening delimiter makes a keyword.
    Named,
    /// A complete item came.
    Past,
}

/// The state after the next token, if it is allowed.
#[inline(always)]
fn take(phase: Phase, stack: &mut Stack, kind: TokenKind) -> Option<Phase>
    ensures taken { IfSome result (λ next. step_at 16 phase stack.old kind ≡ Some (state next stack.new)) }
    ensures refused { IfNone result (step_at 16 phase stack.old kind ≡ None) }
    ensures kept { IfNone result (stack.new ≡ stack.old) }
{
    match kind {
        TokenKind::Word => match phase {
            Phase::Begin => Some(Phase::Named),
            Phase::Named => None,
            Phase::Past => None,
        },
        TokenKind::Quoted => take_leaf(phase, stack),
        TokenKind::Number => take_leaf(phase, stack),
        TokenKind::Comma => take_comma(phase, stack),
        TokenKind::Open(delimiter) => take_open(phase, stack, delimiter),
        TokenKind::Close(delimiter) => take_close(phase, stack, delimiter),
    }
}

#[inline(always)]
fn take_leaf(phase: Phase, stack: &Stack) -> Option<Phase>
    ensures taken { IfSome result (λ next. step_at 16 phase stack.now TokenKind.Quoted ≡ Some (state next stack.now)) }
    ensures number { step_at 16 phase stack.now TokenKind.Quoted ≡ step_at 16 phase stack.now TokenKind.Number }
    ensures refused { IfNone result (step_at 16 phase stack.now TokenKind.Quoted ≡ None) }
{
    match phase {
        Phase::Begin => {
            if stack.is_empty() {
                return None;
            }
            Some(Phase::Past)
        }
        Phase::Named => None,
        Phase::Past => None,
    }
}

#[inline(always)]
fn take_comma(phase: Phase, stack: &Stack) -> Option<Phase>
    ensures taken { IfSome result (λ next. step_at 16 phase stack.now TokenKind.Comma ≡ Some (state next stack.now)) }
    ensures refused { IfNone result (step_at 16 phase stack.now TokenKind.Comma ≡ None) }
{
    match phase {
        Phase::Begin => None,
        Phase::Named => after_item(stack),
        Phase::Past => after_item(stack),
    }
}

#[inline(always)]
fn after_item(stack: &Stack) -> Option<Phase>
    ensures taken { IfSome result (λ next. comma stack.now ≡ Some (state next stack.now)) }
    ensures refused { IfNone result (comma stack.now ≡ None) }
{
    if stack.is_empty() {
        return None;
    }
    Some(Phase::Begin)
}

#[inline(always)]
fn take_open(phase: Phase, stack: &mut Stack, delimiter: Delimiter) -> Option<Phase>
    ensures taken { IfSome result (λ next. step_at 16 phase stack.old (TokenKind.Open delimiter) ≡ Some (state next stack.new)) }
    ensures refused { IfNone result (step_at 16 phase stack.old (TokenKind.Open delimiter) ≡ None) }
    ensures kept { IfNone result (stack.new ≡ stack.old) }
{
    match phase {
        Phase::Begin => None,
        Phase::Named => {
            if stack.is_full() {
                return None;
            }
            stack.push(delimiter);
            Some(Phase::Begin)
        }
        Phase::Past => None,
    }
}

#[inline(always)]
fn take_close(phase: Phase, stack: &mut Stack, delimiter: Delimiter) -> Option<Phase>
    ensures taken { IfSome result (λ next. step_at 16 phase stack.old (TokenKind.Close delimiter) ≡ Some (state next stack.new)) }
    ensures refused { IfNone result (step_at 16 phase stack.old (TokenKind.Close delimiter) ≡ None) }
    ensures kept { IfNone result (stack.new ≡ stack.old) }
{
    match phase {
        Phase::Begin => None,
        Phase::Named => end_node(stack, delimiter),
        Phase::Past => end_node(stack, delimiter),
    }
}

#[inline(always)]
fn end_node(stack: &mut Stack, delimiter: Delimiter) -> Option<Phase>
    ensures taken { IfSome result (λ next. closed delimiter stack.old ≡ Some (state next stack.new)) }
    ensures refused { IfNone result (closed delimiter stack.old ≡ None) }
    ensures kept { IfNone result (stack.new ≡ stack.old) }
{
    if stack.pop(delimiter) {
        return Some(Phase::Past);
    }
    None
}

#[inline(always)]
fn refusal(phase: Phase, stack: &Stack, kind: TokenKind, place: usize) -> TextFault
    ensures { result ≡ refusal phase stack.now kind place }
{
    match phase {
        Phase::Begin => TextFault::Unexpected(place),
        Phase::Named => match kind {
            TokenKind::Open(_) => TextFault::Depth(place),
            _ => TextFault::Unexpected(place),
        },
        Phase::Past => {
            if stack.is_empty() {
                TextFault::After(place)
            } else {
                TextFault::Unexpected(place)
            }
        }
    }
}

/// Takes the next token, or returns its fault.
#[inline(always)]
pub(crate) fn take_token(
    phase: Phase,
    stack: &mut Stack,
    kind: TokenKind,
    place: usize,
) -> Result<Phase, TextFault>
    ensures ok { IfOk result (λ next. step_at 16 phase stack.old kind ≡ Some (state next stack.new)) }
    ensures refused { OnErr result (step_at 16 phase stack.old kind ≡ None) }
    ensures fault { IfErr result (λ e. e ≡ refusal phase stack.old kind place) }
{
    match take(phase, stack, kind) {
        Some(next) => Ok(next),
        None => Err(refusal(phase, stack, kind, place)),
    }
}
