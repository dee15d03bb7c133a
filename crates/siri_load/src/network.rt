//! What becomes of packets.

/// What becomes of packets.
#[derive(Clone, Copy, Debug)]
pub(crate) enum Network {
    /// Every packet is delivered.
    Lossless,
    /// One packet of ten is lost, as it is drawn.
    Lossy,
}
