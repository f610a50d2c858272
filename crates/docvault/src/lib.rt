//! Sealed documents: what is made of a committee's key, and the box of a document.
//!
//! A box hides a document under a stream cipher and carries a tag over all that it says. It is
//! opened exactly where its bytes are the box of a document under the asked key and name; else the
//! answer is the first fault that holds, in a fixed order. That the cipher hides and that a tag
//! can't be forged is not proved.
#![tactic(auto)]

mod cipher;
mod document;
mod fault;
mod hmac;
mod keys;
#[cfg(test)]
mod tests;

pub use document::{seal, seal_in_place, unseal, unseal_in_place};
pub use fault::BoxFault;
pub use hmac::hmac256;
pub use keys::fingerprint;
