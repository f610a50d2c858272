//! The text of a rehearsal.

ghost use Rattle.std.specs.Prelude.{◌≡◌, ◌++◌, All, length, IfOk, OnOk, string_bytes};
ghost use Rattle.scenes.specs.Law.{AreSides};
ghost use Rattle.playbill.specs.Text.{key_line, rehearsal_text, views_line};

use crate::phase::put_phases;
use docvault::fingerprint;
use field61::{Fe, NumberList};
use keyroom::put_hex;
use lists::OutOfMemory;
use scenes::Scene;
use std::alloc::Global;

// Appends a word and the fingerprint of a key.
fn put_key(alloc: Global, text: &mut String, word: &str, key: &[Fe; 5]) -> Result<(), OutOfMemory>
    ensures { OnOk result (string_bytes text.new ≡ string_bytes text.old ++ key_line word.now key.now) }
{
    let print = fingerprint(alloc, key)?;
    write!(text, "{word} ")?;
    put_hex(text, &print)?;
    writeln!(text)?;
    Ok(())
}

// Appends of how many periods the views are the same.
fn put_views(text: &mut String, periods: usize) -> Result<(), OutOfMemory>
    ensures { OnOk result (string_bytes text.new ≡ string_bytes text.old ++ views_line periods) }
{
    writeln!(text, "views {periods} same")?;
    Ok(())
}

/// What a rehearsal prints: a line for each of its phases, with how many instances were accepted in it; the fingerprints of
/// its key and of the key of its other choices; and the number of its periods, of which the views are the same. The error is
/// want of memory.
pub fn rehearse_text(
    alloc: Global,
    scenes: &[Scene],
    accepted: &NumberList,
    key: &[Fe; 5],
    other: &[Fe; 5],
) -> Result<String, OutOfMemory>
    requires counts { length accepted.now ≡ length scenes.now }
    requires sides { All AreSides scenes.now }
    ensures { IfOk result (λ s. string_bytes s ≡ rehearsal_text scenes.now accepted.now key.now other.now) }
{
    let mut text = String::new(alloc);
    put_phases(&mut text, scenes, accepted)?;
    put_key(alloc, &mut text, "key", key)?;
    put_key(alloc, &mut text, "other", other)?;
    put_views(&mut text, scenes.len())?;
    Ok(text)
}
