//! A run by four plain minds.

ghost use Rattle.std.specs.Prelude.{◌≡◌, ◌∷◌, [], eqb, cond};
ghost use Rattle.talk.specs.Shape.{seats};
ghost use Rattle.talk.specs.declared.messages.Post.TheVariants.{Complaints};
ghost use Rattle.talk.specs.declared.messages.Ring.TheVariants.{Nothing};
ghost use Rattle.talk.specs.declared.messages.Say.TheVariants.{Pass, PassThenSpeak, Speak};

use driver::drive;
use lists::OutOfMemory;
use std::alloc::Global;
use talk::{ComplaintList, Heard, Mind, Post, PostList, Ring, RingList, Say, Setting};

// A member of four that posts no complaints in every round, passes in one round, speaks late in another,
// and keeps the posts that it hears in the third.
#[derive(Drop)]
struct Plain {
    passes: u32,
    late: u32,
    third: PostList,
}

impl Mind for Plain {
    ghost made_for = { λ p s seat. seats s ≡ 4 };

    ghost may_say = { λ p round. Unit {0} };

    ghost may_hear = { λ p round. Unit {0} };

    ghost word = { λ p round. cond
        (eqb round p.passes)
        Pass
        (cond
        (eqb round p.late)
        (PassThenSpeak (Complaints []) (Nothing ∷ Nothing ∷ Nothing ∷ Nothing ∷ []))
        (Speak (Complaints []) (Nothing ∷ Nothing ∷ Nothing ∷ Nothing ∷ []))) };

    ghost after_say = { λ p round. p };

    ghost after_hear = { λ p round h. cond (eqb round 3) (record p { third = h.posts }) p };

    ghost say_keeps = { λ p round may s seat. (λ m. m, λ m. m) };

    ghost hear_keeps = { λ p round h may s seat. (λ m. m, λ m. m) };

    ghost hears_next = { λ p round may. tt };

    ghost says_next = { λ p round h s seat may made less. tt };

    fn say(&mut self, alloc: Global, round: u32) -> Result<Say, OutOfMemory> {
        if round == self.passes {
            return Ok(Say::Pass);
        }
        let post = Post::Complaints {
            list: ComplaintList::new(alloc),
        };
        let mut rings = RingList::new(alloc);
        rings.push(Ring::Nothing)?;
        rings.push(Ring::Nothing)?;
        rings.push(Ring::Nothing)?;
        rings.push(Ring::Nothing)?;
        if round == self.late {
            return Ok(Say::PassThenSpeak { post, rings });
        }
        Ok(Say::Speak { post, rings })
    }

    fn hear(&mut self, _alloc: Global, round: u32, heard: Heard) -> Result<(), OutOfMemory> {
        if round == 3 {
            self.third = heard.posts;
        }
        Ok(())
    }
}

fn make_plain(alloc: Global, passes: u32, late: u32) -> Plain {
    Plain {
        passes,
        late,
        third: PostList::new(alloc),
    }
}

#[test]
fn a_seat_that_passes_or_is_late_is_out_from_then_on(rt: HostRuntime) -> Result<(), OutOfMemory> {
    let alloc = rt.alloc();
    let mut minds = Vec::new(alloc);
    minds.push(make_plain(alloc, 0, 0))?;
    minds.push(make_plain(alloc, 2, 0))?;
    minds.push(make_plain(alloc, 0, 0))?;
    minds.push(make_plain(alloc, 0, 4))?;
    let driven = drive(alloc, minds, &Setting::create(4, 1))?;
    assert!(rt; driven.masks.as_slice() == [15, 13, 13, 5, 5].as_slice());
    for mind in driven.minds.iter() {
        let heard = mind.third.as_slice();
        assert_eq!(rt; heard.len(), 4);
        for (k, post) in heard.iter().enumerate() {
            assert_eq!(rt; matches!(post, Post::Quiet), k == 1, "seat {}", k + 1);
        }
    }
    Ok(())
}
