//! A seat of a sharing.

use talk::Setting;
use vss_core::Dealer;

// A seat of a setting, and the dealer that sits there, where one does.
#[derive(Drop)]
pub(crate) struct Place {
    pub(crate) setting: Setting,
    pub(crate) seat: u32,
    pub(crate) dealer: Option<Dealer>,
}
