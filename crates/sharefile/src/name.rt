//! The name of a key.
ghost use Rattle.std.specs.Prelude.{Some, ◌≡◌, ◌==◌, ◌<◌, ◌≤◌, ◌↔◌, IsTrue, IfSome, position, length, take};
ghost use Rattle.std.specs.Option.{SomeIff};
ghost use Rattle.std.specs.List.{list_all};
ghost use Rattle.sharefile.specs.Names.{is_name_byte, is_key_name, is_padded_name, padded, text_in};

use std::fmt;
use std::marker::Model;

/// The name of a key: 1 to 32 characters of a to z, 0 to 9 and `_`. A contract sees it as its text.
#[derive(Clone, Copy, Debug)]
pub struct KeyName {
    // The text, and zeros behind it.
    bytes: [u8; 32],
    len: usize,
}

impl Model for KeyName {
    ghost use Rattle.std.specs.Prelude.{◌≡◌, ℕ, List, length, take, IsTrue, refl};
    ghost use Rattle.sharefile.specs.Names.{is_key_name, padded};

    ghost Value = { List ℕ };

    ghost view = { λ a. take a.len a.bytes };

    ghost invariant = { λ a. IsTrue (is_key_name (take a.len a.bytes)) × (length (take a.len a.bytes) ≡ a.len) × (padded (take a.len a.bytes) ≡ a.bytes) };

    ghost inverse = { λ text. record { bytes = padded text; len = length text } };

    ghost inverse_ok = { λ a h i. record { bytes = h.2 i; len = h.1 i } };
}

fn is_name_byte(b: u8) -> bool
    ensures { result ≡ is_name_byte b }
{
    b.is_ascii_lowercase() || b.is_ascii_digit() || b == b'_'
}

fn are_name_bytes(text: &[u8]) -> bool
    ensures { result ≡ list_all is_name_byte text.now }
{
    text.iter().all(|b| is_name_byte(*b))
}

fn is_key_name(text: &[u8]) -> bool
    ensures { result ≡ is_key_name text.now }
{
    1 <= text.len() && text.len() <= 32 && are_name_bytes(text)
}

/// The text, and zeros behind it.
fn padded(text: &[u8]) -> [u8; 32]
    requires { length text.now ≤ 32 }
    ensures { result ≡ padded text.now }
{
    let mut bytes = [0; 32];
    bytes[..text.len()].copy_from_slice(text);
    bytes
}

fn first_zero(bytes: &[u8]) -> Option<usize>
    ensures place { result ≡ position (λ b. b == 0) bytes.now }
    ensures within { IfSome result (λ place. place < length bytes.now) }
{
    bytes.iter().position(|b| *b == 0)
}

/// What stands in front of the first zero.
fn text_in(bytes: &[u8]) -> &[u8]
    ensures { result.now ≡ text_in bytes.now }
{
    let len = first_zero(bytes).unwrap_or(bytes.len());
    &bytes[..len]
}

impl KeyName {
    fn from_name_bytes(text: &[u8]) -> Option<KeyName>
        ensures { SomeIff result (IsTrue (is_key_name text.now)) text.now }
    {
        if !is_key_name(text) {
            return None;
        }
        Some(KeyName {
            bytes: padded(text),
            len: text.len(),
        })
    }

    /// The name with this text. `None` exactly where the text isn't 1 to 32 characters of a to z,
    /// 0 to 9 and `_`.
    pub fn from_text(text: &str) -> Option<KeyName>
        ensures { SomeIff result (IsTrue (is_key_name text.now)) text.now }
    {
        KeyName::from_name_bytes(text.as_bytes())
    }

    /// The name that stands in these 32 bytes of a file.
    pub(crate) fn from_padded(bytes: &[u8]) -> Option<KeyName>
        requires { length bytes.now ≡ 32 }
        ensures { SomeIff result (IsTrue (is_padded_name bytes.now)) (text_in bytes.now) }
    {
        let name = KeyName::from_name_bytes(text_in(bytes))?;
        if name.bytes.as_slice() == bytes {
            Some(name)
        } else {
            None
        }
    }

    /// The name's text.
    pub fn as_str(&self) -> &str
        ensures text { result.now ≡ self.now }
        ensures name { IsTrue (is_key_name self.now) }
    {
        match str::from_utf8(&self.bytes[..self.len]) {
            Ok(text) => text,
            Err(_) => unreachable!(),
        }
    }

    /// The name's 32 bytes in a file: its text, and zeros behind it.
    pub fn bytes(&self) -> [u8; 32]
        ensures bytes { result ≡ padded self.now }
        ensures name { IsTrue (is_key_name self.now) }
    {
        self.bytes
    }
}

impl fmt::Display for KeyName {
    ghost output = { λ name. Some name };

    fn fmt<W: fmt::Write>(&self, f: &mut fmt::Formatter<W>) -> fmt::Result {
        f.write_str(self.as_str())
    }
}
