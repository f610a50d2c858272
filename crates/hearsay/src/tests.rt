//! What is heard of two of four minds that say the same in each round, worked out by hand from the shapes of messages.

ghost use Rattle.std.specs.Prelude.{◌≡◌, ◌≤◌, ◌∷◌, [], cond, true, IfOk};
ghost use Rattle.talk.specs.Shape.{seats};
ghost use Rattle.talk.specs.declared.messages.Post.TheVariants.{Complaints};
ghost use Rattle.talk.specs.declared.messages.Ring.TheVariants.{Cross, Dealt, Nothing};
ghost use Rattle.talk.specs.declared.messages.Say.TheVariants.{Pass, Speak};

use crate::said_of;
use field61::{Fe, FeList, NumberList};
use lists::{OutOfMemory, TryCopy};
use playback::SaidItem;
use std::alloc::Global;
use talk::{ComplaintList, Heard, Mind, Post, Ring, RingList, Say, Setting};

// An item as round, seat, receiving seat and what it has.
type Told = (u32, u32, u32, u32);

const COMPLAINTS: u32 = 0;

const DEALT: u32 = 1;

const CROSS: u32 = 2;

const OTHER: u32 = 3;

// A mind among four that passes in each round; or, on one of the last two seats, posts no complaints in each round,
// deals to the first seat and sends crossing points to the second.
#[derive(Drop)]
struct Plain {
    speaks: bool,
    dealt: FeList,
    cross: FeList,
}

impl Mind for Plain {
    ghost made_for = { λ p s seat. (seats s ≡ 4) × (p.speaks ≡ true → 3 ≤ seat) };

    ghost may_say = { λ p round. Unit {0} };

    ghost may_hear = { λ p round. Unit {0} };

    ghost word = { λ p round. cond
        p.speaks
        (Speak (Complaints []) (Dealt p.dealt ∷ Cross p.cross ∷ Nothing ∷ Nothing ∷ []))
        Pass };

    ghost after_say = { λ p round. p };

    ghost after_hear = { λ p round h. p };

    ghost say_keeps = { λ p round may s seat. (λ m. m, λ m. m) };

    ghost hear_keeps = { λ p round h may s seat. (λ m. m, λ m. m) };

    ghost hears_next = { λ p round may. tt };

    ghost says_next = { λ p round h s seat may made less. tt };

    fn say(&mut self, alloc: Global, _round: u32) -> Result<Say, OutOfMemory> {
        if !self.speaks {
            return Ok(Say::Pass);
        }
        let mut rings = RingList::new(alloc);
        rings.push(Ring::Dealt {
            list: self.dealt.copy(alloc)?,
        })?;
        rings.push(Ring::Cross {
            list: self.cross.copy(alloc)?,
        })?;
        rings.push(Ring::Nothing)?;
        rings.push(Ring::Nothing)?;
        let post = Post::Complaints {
            list: ComplaintList::new(alloc),
        };
        Ok(Say::Speak { post, rings })
    }

    fn hear(&mut self, _alloc: Global, _round: u32, _heard: Heard) -> Result<(), OutOfMemory> {
        Ok(())
    }
}

fn zeros(alloc: Global, count: u32) -> Result<FeList, OutOfMemory> {
    let mut list = FeList::new(alloc);
    for _ in 0..count {
        list.push(Fe::ZERO)?;
    }
    Ok(list)
}

// One that passes, or one whose messages have their shape in a refresh of four members with bound 1.
fn mind(alloc: Global, speaks: bool) -> Result<Plain, OutOfMemory>
    ensures { IfOk result (λ plain. plain.speaks ≡ speaks) }
{
    Ok(Plain {
        speaks,
        dealt: zeros(alloc, 10)?,
        cross: zeros(alloc, 40)?,
    })
}

fn told(item: &SaidItem) -> Told {
    let kind = match (&item.post, &item.ring) {
        (Post::Complaints { .. }, Ring::Nothing) => COMPLAINTS,
        (Post::Quiet, Ring::Dealt { .. }) => DEALT,
        (Post::Quiet, Ring::Cross { .. }) => CROSS,
        _ => OTHER,
    };
    (item.round, item.seat, item.to, kind)
}

// What is heard by these masks of the seats of a mask.
fn heard(alloc: Global, masks: [u32; 5], down: u32) -> Result<Vec<Told>, OutOfMemory> {
    let mut minds = Vec::new(alloc);
    minds.push(mind(alloc, false)?)?;
    minds.push(mind(alloc, false)?)?;
    minds.push(mind(alloc, true)?)?;
    minds.push(mind(alloc, true)?)?;
    let mut list = NumberList::new(alloc);
    list.push(masks[0])?;
    list.push(masks[1])?;
    list.push(masks[2])?;
    list.push(masks[3])?;
    list.push(masks[4])?;
    let said = said_of(alloc, minds, &list, down, &Setting::refresh(4, 1))?;
    let mut items = Vec::new(alloc);
    for item in said.as_slice() {
        items.push(told(item))?;
    }
    Ok(items)
}

#[test]
fn each_message_of_its_shape_is_heard_of_a_seat_that_is_down_and_in_the_mask(
    rt: HostRuntime,
) -> Result<(), OutOfMemory> {
    let cases: [([u32; 5], u32, &[Told]); 6] = [
        (
            [15, 15, 15, 15, 15],
            12,
            &[
                (1, 3, 1, DEALT),
                (1, 4, 1, DEALT),
                (2, 3, 2, CROSS),
                (2, 4, 2, CROSS),
                (3, 3, 0, COMPLAINTS),
                (3, 4, 0, COMPLAINTS),
            ],
        ),
        (
            [15, 7, 11, 15, 15],
            12,
            &[
                (1, 3, 1, DEALT),
                (1, 4, 1, DEALT),
                (2, 3, 2, CROSS),
                (3, 4, 0, COMPLAINTS),
            ],
        ),
        (
            [15, 15, 15, 15, 15],
            8,
            &[(1, 4, 1, DEALT), (2, 4, 2, CROSS), (3, 4, 0, COMPLAINTS)],
        ),
        ([8, 0, 0, 0, 0], 15, &[(1, 4, 1, DEALT)]),
        ([15, 15, 15, 15, 15], 3, &[]),
        ([15, 15, 15, 15, 15], 0, &[]),
    ];
    for (masks, down, items) in cases {
        assert_eq!(rt;
            heard(rt.alloc(), masks, down)?.as_slice(),
            items,
            "{masks:?} {down}"
        );
    }
    Ok(())
}
