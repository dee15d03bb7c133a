//! The moments between two edges.

/// The moments that a topic asks for, in milliseconds since 1970 in UTC: from one on, and up to another, which is out,
/// where there is one.
#[derive(Clone, Copy, Debug, PartialEq, Eq)]
pub struct Window {
    pub from: i64,
    pub to: Option<i64>,
}
