//! How runs of words are shown.

/// Whether a run of words is shown as it is, is marked since it differs from the other side, or is folded.
#[derive(Clone, Copy)]
pub enum RunKind {
    Plain,
    Differs,
    Folded,
}
