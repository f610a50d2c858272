//! What is printed, and the names of files.
ghost use Rattle.std.specs.Prelude.{◌≡◌, ◌++◌, OnOk, IfOk, string_bytes, codes, decimal};
ghost use Rattle.keyroom.specs.Names.{now_name, share_name};
ghost use Rattle.keyroom.specs.Texts.{member_lines, hex_text, recover_text, check_text, round_lines, phase_lines, indexes_text, corrected_line, shares_line, period_text, create_text, refresh_text, move_text, document_text};

use crate::check::Checked;
use crate::recover::Recovered;
use crate::state::StateList;
use crate::work::Sealed;
use docvault::fingerprint;
use field61::NumberList;
use lists::OutOfMemory;
use sharefile::{KeyName, NowFile};
use sizes::LANES;
use std::alloc::Global;

/// The name of a key's now file. The error is want of memory.
pub fn now_name(alloc: Global, name: &KeyName) -> Result<String, OutOfMemory>
    ensures { IfOk result (λ s. string_bytes s ≡ now_name name.now) }
{
    Ok(format!(in alloc; "{name}.now")?)
}

/// The name of a member's share file in a period. The error is want of memory.
pub fn share_name(
    alloc: Global,
    name: &KeyName,
    period: u32,
    index: u32,
) -> Result<String, OutOfMemory>
    ensures { IfOk result (λ s. string_bytes s ≡ share_name name.now period index) }
{
    Ok(format!(in alloc; "{name}.{period}.{index}.share")?)
}

/// Appends a line for each member.
fn put_members(text: &mut String, members: &StateList) -> Result<(), OutOfMemory>
    ensures { OnOk result (string_bytes text.new ≡ string_bytes text.old ++ member_lines 1 members.now) }
{
    for (k, state) in members.as_slice().iter().enumerate() {
        let index = k + 1;
        writeln!(text, "member {index} {state}")?;
    }
    Ok(())
}

/// Appends two hexadecimal digits for each byte.
pub fn put_hex(text: &mut String, bytes: &[u8; 32]) -> Result<(), OutOfMemory>
    ensures { OnOk result (string_bytes text.new ≡ string_bytes text.old ++ hex_text bytes.now) }
{
    for byte in bytes {
        write!(text, "{byte:02x}")?;
    }
    Ok(())
}

/// The text of `recover`.
pub(crate) fn recover_text(alloc: Global, recovered: &Recovered) -> Result<String, OutOfMemory>
    ensures { IfOk result (λ s. string_bytes s ≡ recover_text recovered.now) }
{
    let name = &recovered.file.name;
    let n = recovered.file.n;
    let t = recovered.file.t;
    let period = recovered.file.period;
    let print = fingerprint(alloc, &recovered.lanes)?;
    let mut text = String::new(alloc);
    writeln!(text, "recover {name} {n} {t} period {period}")?;
    put_members(&mut text, &recovered.members)?;
    write!(text, "key ")?;
    put_hex(&mut text, &print)?;
    writeln!(text)?;
    Ok(text)
}

/// The text of `check`.
pub(crate) fn check_text(alloc: Global, checked: &Checked) -> Result<String, OutOfMemory>
    ensures { IfOk result (λ s. string_bytes s ≡ check_text checked.now) }
{
    let name = &checked.file.name;
    let n = checked.file.n;
    let t = checked.file.t;
    let period = checked.file.period;
    let mut text = String::new(alloc);
    writeln!(text, "check {name} {n} {t} period {period}")?;
    put_members(&mut text, &checked.members)?;
    Ok(text)
}

/// Appends a line for each round, the first being round 1.
fn put_rounds(text: &mut String, masks: &NumberList) -> Result<(), OutOfMemory>
    ensures { OnOk result (string_bytes text.new ≡ string_bytes text.old ++ round_lines 1 masks.now) }
{
    for k in 0..masks.len() {
        let round = k + 1;
        let mask = *masks.at(k);
        writeln!(text, "round {round} mask {mask}")?;
    }
    Ok(())
}

/// Appends what a phase came to: a line for each round, and how many of how many instances were accepted.
fn put_phase(
    text: &mut String,
    masks: &NumberList,
    accepted: u32,
    instances: u32,
) -> Result<(), OutOfMemory>
    ensures { OnOk result (string_bytes text.new ≡ string_bytes text.old ++ phase_lines masks.now accepted instances) }
{
    put_rounds(text, masks)?;
    writeln!(text, "accepted {accepted} of {instances}")?;
    Ok(())
}

/// Appends the line of the old members whose shares were corrected.
fn put_corrected(text: &mut String, indexes: &NumberList) -> Result<(), OutOfMemory>
    ensures { OnOk result (string_bytes text.new ≡ string_bytes text.old ++ corrected_line indexes.now) }
{
    if indexes.len() == 0 {
        writeln!(text, "corrected none")?;
        return Ok(());
    }
    write!(text, "corrected")?;
    put_indexes(text, indexes)?;
    writeln!(text)?;
    Ok(())
}

/// Appends the line of the indexes that got a share file.
fn put_shares(text: &mut String, indexes: &NumberList) -> Result<(), OutOfMemory>
    ensures { OnOk result (string_bytes text.new ≡ string_bytes text.old ++ shares_line indexes.now) }
{
    write!(text, "shares")?;
    put_indexes(text, indexes)?;
    writeln!(text)?;
    Ok(())
}

/// Appends the indexes, each behind a space.
fn put_indexes(text: &mut String, indexes: &NumberList) -> Result<(), OutOfMemory>
    ensures { OnOk result (string_bytes text.new ≡ string_bytes text.old ++ indexes_text indexes.now) }
{
    for k in 0..indexes.len() {
        let index = *indexes.at(k);
        write!(text, " {index}")?;
    }
    Ok(())
}

/// The text of a command that begins a period of one committee, by its word.
fn period_text(
    alloc: Global,
    verb: &str,
    now: &NowFile,
    masks: &NumberList,
    accepted: u32,
    instances: u32,
    indexes: &NumberList,
) -> Result<String, OutOfMemory>
    ensures { IfOk result (λ s. string_bytes s ≡ period_text verb.now now.now masks.now accepted instances indexes.now) }
{
    let name = &now.name;
    let n = now.n;
    let t = now.t;
    let period = now.period;
    let mut text = String::new(alloc);
    writeln!(text, "{verb} {name} {n} {t} period {period}")?;
    put_phase(&mut text, masks, accepted, instances)?;
    put_shares(&mut text, indexes)?;
    Ok(text)
}

/// The text of `create`: the masks of the rounds, how many of how many instances were accepted, and the members that
/// got a share file. The error is want of memory.
pub fn create_text(
    alloc: Global,
    now: &NowFile,
    masks: &NumberList,
    accepted: u32,
    instances: u32,
    indexes: &NumberList,
) -> Result<String, OutOfMemory>
    ensures { IfOk result (λ s. string_bytes s ≡ create_text now.now masks.now accepted instances indexes.now) }
{
    period_text(alloc, "create", now, masks, accepted, instances, indexes)
}

/// The text of `refresh`, by the now file of the new period, with the same parts. The error is want of memory.
pub fn refresh_text(
    alloc: Global,
    now: &NowFile,
    masks: &NumberList,
    accepted: u32,
    instances: u32,
    indexes: &NumberList,
) -> Result<String, OutOfMemory>
    ensures { IfOk result (λ s. string_bytes s ≡ refresh_text now.now masks.now accepted instances indexes.now) }
{
    period_text(alloc, "refresh", now, masks, accepted, instances, indexes)
}

/// The text of `move`, by the old committee's now file and the new one's: the masks of the rounds, how many instances were
/// accepted, the old members whose shares were corrected, and the new members that got a share file. The error is want of
/// memory.
pub fn move_text(
    alloc: Global,
    old: &NowFile,
    new: &NowFile,
    masks: &NumberList,
    accepted: u32,
    corrected: &NumberList,
    indexes: &NumberList,
) -> Result<String, OutOfMemory>
    ensures { IfOk result (λ s. string_bytes s ≡ move_text old.now new.now masks.now accepted corrected.now indexes.now) }
{
    let name = &old.name;
    let (n, t) = (old.n, old.t);
    let (m, u) = (new.n, new.t);
    let period = new.period;
    let mut text = String::new(alloc);
    writeln!(text, "move {name} {n} {t} to {m} {u} period {period}")?;
    put_phase(&mut text, masks, accepted, LANES * n)?;
    put_corrected(&mut text, corrected)?;
    put_shares(&mut text, indexes)?;
    Ok(text)
}

/// The text of `seal` or `open`, by the command's word.
pub(crate) fn document_text(
    alloc: Global,
    verb: &str,
    name: &KeyName,
    sealed: &Sealed,
) -> Result<String, OutOfMemory>
    ensures { IfOk result (λ s. string_bytes s ≡ document_text verb.now name.now sealed.now.number sealed.now.bytes) }
{
    let number = sealed.number;
    let bytes = sealed.bytes;
    let mut text = String::new(alloc);
    writeln!(text, "{verb} {name} number {number} bytes {bytes}")?;
    Ok(text)
}
