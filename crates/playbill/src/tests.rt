//! Texts of rehearsals, by drawn phases, and by counts and keys that are chosen here.

ghost use Rattle.std.specs.Prelude.{◌≡◌, ◌+◌, ◌≤◌, true, length, IfOk};
ghost use Rattle.sizes.specs.Committees.{is_bound, is_size};

use crate::rehearse_text;
use field61::{Fe, NumberList};
use lists::OutOfMemory;
use scenes::scenes_of;
use sizes::Committee;
use std::alloc::Global;

fn list_of(alloc: Global, numbers: &[u32]) -> Result<NumberList, OutOfMemory>
    ensures { IfOk result (λ list. list ≡ numbers.now) }
{
    let mut items = Vec::new(alloc);
    items.extend_from_slice(numbers)?;
    Ok(NumberList::from_vec(items))
}

// The text of the rehearsal from a number that a committee begins, with these counts, the key 7, 0, 0, 0, 0 and the other key
// 8, 1, 1, 1, 1.
fn printed(
    alloc: Global,
    committee: Committee,
    periods: u32,
    number: u32,
    counts: &[u32],
) -> Result<String, OutOfMemory>
    requires size { is_size committee.members ≡ true }
    requires bound { is_bound committee.members committee.bound ≡ true }
    requires periods { periods ≤ 64 }
    requires counts { length counts.now ≡ periods + 1 }
{
    let scenes = scenes_of(alloc, committee, periods, number)?;
    let accepted = list_of(alloc, counts)?;
    let key = [Fe::reduce(7), Fe::ZERO, Fe::ZERO, Fe::ZERO, Fe::ZERO];
    let other = [Fe::reduce(8), Fe::ONE, Fe::ONE, Fe::ONE, Fe::ONE];
    rehearse_text(alloc, scenes.as_slice(), &accepted, &key, &other)
}

// Member 4 is drilled in the create, and has no share in the refresh. The fingerprints are those of another program.
#[test]
fn a_create_and_a_refresh_of_four_members(rt: HostRuntime) -> Result<(), OutOfMemory> {
    let committee = Committee {
        members: 4,
        bound: 1,
    };
    let text = printed(rt.alloc(), committee, 1, 0, [20, 15].as_slice())?;
    assert_eq!(rt;
        text.as_str(),
        "create 4 1 faulty 1 accepted 20 of 20\n\
        refresh 4 1 faulty 1 accepted 15 of 20\n\
        key 133e7f97ad4b6a1fc1bebc9e6a35d495f3de8d4df7615d75d074b69f4d1ec0c3\n\
        other 001c4c6f426a3cc01007b094e326912bacce7a8b3fea0159a5f51e6bdb745148\n\
        views 2 same\n"
    );
    Ok(())
}

// One more is down in each phase, and none of the four to whom the key goes but the one that is drilled.
#[test]
fn a_move_of_thirteen_members_to_four(rt: HostRuntime) -> Result<(), OutOfMemory> {
    let committee = Committee {
        members: 13,
        bound: 4,
    };
    let text = printed(rt.alloc(), committee, 4, 9, [65, 60, 0, 64, 9].as_slice())?;
    assert_eq!(rt;
        text.as_str(),
        "create 13 4 faulty 1 accepted 65 of 65\n\
        refresh 13 4 faulty 2 accepted 60 of 65\n\
        refresh 13 4 faulty 3 accepted 0 of 65\n\
        move 13 4 to 4 1 faulty 4 1 accepted 64 of 65\n\
        refresh 4 1 faulty 1 accepted 9 of 20\n\
        key 133e7f97ad4b6a1fc1bebc9e6a35d495f3de8d4df7615d75d074b69f4d1ec0c3\n\
        other 001c4c6f426a3cc01007b094e326912bacce7a8b3fea0159a5f51e6bdb745148\n\
        views 5 same\n"
    );
    Ok(())
}
