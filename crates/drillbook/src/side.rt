//! Sides of a receiver.

/// Where a receiver stands beside another one in their order.
#[derive(Clone, Copy)]
pub(crate) enum Side {
    Below,
    At,
    Above,
}
