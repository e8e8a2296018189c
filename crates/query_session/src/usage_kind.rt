//! Why the words are refused.

/// Why the words are refused.
#[derive(Clone, Copy, Debug, PartialEq, Eq)]
pub enum UsageKind {
    /// They fit no form.
    Words,
    /// A name that they give is no generator.
    NoGenerator,
}
