//! Who holds a share file of a committee in a period, and what ties the committee to them.
ghost use Rattle.std.specs.Prelude.{◌≡◌, ◌≤◌, ◌<◌, IsTrue, length};
ghost use Rattle.sharefile.specs.Names.{is_key_name};
ghost use Rattle.sharing61.specs.Count.{how_many};
ghost use Rattle.sizes.specs.Committees.{is_size, is_bound};
ghost use Rattle.commands.specs.Links.{holders_of, digest_in, first_link, first_now, following_now, next_now};
ghost use Rattle.commands.specs.Phase.{marked};

use crate::down::is_marked;
use sharefile::{KeyName, Link, NowFile, committee_digest};
use sizes::Committee;

/// Who of the members 1 to `n` gets a share file, member `i` at bit `i - 1`: who isn't down.
fn holders_of(down: &[bool], n: u32) -> u32
    requires { n ≤ 15 }
    ensures { result ≡ holders_of (marked down.now) n }
{
    let mut holders = 0;
    for member in 1..n + 1 {
        if !is_marked(down, member) {
            holders += 1 << (member - 1);
        }
    }
    holders
}

/// The now file of a new key, whose members get a share file but for those that are down.
pub(crate) fn first_now(name: &KeyName, committee: Committee, down: &[bool]) -> NowFile
    requires name { IsTrue (is_key_name name.now) }
    requires size { IsTrue (is_size committee.members) }
    requires bound { IsTrue (is_bound committee.members committee.bound) }
    requires few { how_many committee.members (marked down.now) ≤ committee.bound }
    ensures { result ≡ first_now name.now committee.members committee.bound (first_link name.now committee.members committee.bound (marked down.now)) }
{
    let Committee {
        members: n,
        bound: t,
    } = committee;
    let previous = [0; 32];
    let holders = holders_of(down, n);
    let digest = committee_digest(name, n, t, 1, holders, &previous);
    NowFile {
        name: *name,
        n,
        t,
        period: 1,
        next_number: 0,
        link: Some(Link {
            holders,
            committee: digest,
            previous,
        }),
    }
}

/// The digest of a committee: zeros where its now file is of version 1.
fn digest_of(now: &NowFile) -> [u8; 32]
    ensures { result ≡ digest_in now.now.link }
{
    match &now.link {
        None => [0; 32],
        Some(link) => link.committee,
    }
}

/// The now file of the next period, of a committee in which the members get a share file but for those that are down.
pub(crate) fn following_now(before: &NowFile, committee: Committee, down: &[bool]) -> NowFile
    requires next { before.now.period < 4294967295 }
    requires size { IsTrue (is_size committee.members) }
    requires bound { IsTrue (is_bound committee.members committee.bound) }
    requires few { how_many committee.members (marked down.now) ≤ committee.bound }
    ensures { result ≡ following_now before.now committee.members committee.bound (marked down.now) }
{
    let Committee {
        members: n,
        bound: t,
    } = committee;
    let period = before.period + 1;
    let previous = digest_of(before);
    let holders = holders_of(down, n);
    let digest = committee_digest(&before.name, n, t, period, holders, &previous);
    NowFile {
        name: before.name,
        n,
        t,
        period,
        next_number: before.next_number,
        link: Some(Link {
            holders,
            committee: digest,
            previous,
        }),
    }
}

/// That of the same committee.
pub(crate) fn next_now(before: &NowFile, down: &[bool]) -> NowFile
    requires next { before.now.period < 4294967295 }
    requires few { how_many before.now.n (marked down.now) ≤ before.now.t }
    ensures { result ≡ next_now before.now (marked down.now) }
{
    let committee = Committee {
        members: before.n,
        bound: before.t,
    };
    following_now(before, committee, down)
}
