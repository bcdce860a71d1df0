//! How a command ended.

ghost use Rattle.std.specs.Prelude.{◌≡◌, ◌&&◌, [], false};
ghost use Rattle.cli_open.specs.Outcome.{IsEnded, IsCompared};

use std::alloc::Global;

/// What a command did.
#[derive(Drop)]
pub struct Done<L, B> {
    /// What it left out, in order.
    pub left: Vec<L>,
    /// Whether it found a difference that the exit status shows.
    pub differs: bool,
    /// What it brought.
    pub brought: B,
}

/// Why a command is not done.
#[derive(Drop)]
pub enum NotDone<'m, F> {
    Fault(F),
    /// The command line is wrong, for a reason that clap does not check.
    Misuse(&'m str),
}

/// How a command ended whose faults are of the first kind, and which leaves things of the second kind out. It brought something of the
/// third kind, to be reported at the end.
pub type Outcome<F, L = F, B = ()> = Result<Done<L, B>, NotDone<'static, F>>;

/// A command that is done, left nothing out, and brought this.
pub fn all_done<L, B>(alloc: Global, brought: B) -> Done<L, B>
    ensures left { result.left.items ≡ [] }
    ensures differs { result.differs ≡ false }
    ensures brought { result.brought ≡ brought }
{
    Done {
        left: Vec::new(alloc),
        differs: false,
        brought,
    }
}

// Whether the exit status shows a difference: if it is asked to.
fn is_told(asked: bool, differs: bool) -> bool
    ensures { result ≡ asked && differs }
{
    if asked {
        return differs;
    }
    false
}

/// A command that is done, left nothing out, and brought this. It found a difference or not, which the exit status shows if it is asked
/// to.
pub fn difference<L, B>(alloc: Global, asked: bool, differs: bool, brought: B) -> Done<L, B>
    ensures left { result.left.items ≡ [] }
    ensures differs { result.differs ≡ asked && differs }
    ensures brought { result.brought ≡ brought }
{
    Done {
        left: Vec::new(alloc),
        differs: is_told(asked, differs),
        brought,
    }
}

/// The outcome of a command that is done or has a fault.
pub fn ended<F, L>(alloc: Global, answer: Result<(), F>) -> Outcome<F, L>
    ensures { IsEnded answer result }
{
    match answer {
        Ok(()) => Ok(all_done(alloc, ())),
        Err(fault) => Err(NotDone::Fault(fault)),
    }
}

/// The outcome of a command that found a difference or not, or has a fault. The exit status shows the difference if it is asked to.
pub fn compared<F, L>(alloc: Global, asked: bool, answer: Result<bool, F>) -> Outcome<F, L>
    ensures { IsCompared asked answer result }
{
    match answer {
        Ok(differs) => Ok(difference(alloc, asked, differs, ())),
        Err(fault) => Err(NotDone::Fault(fault)),
    }
}
