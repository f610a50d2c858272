use crate::Scripted;
use std::test::Fail;
use talk::{Mind, Post, RingList, Say};

#[test]
fn a_script_passes_past_its_end(rt: HostRuntime) -> Result<(), Fail> {
    let alloc = rt.alloc();
    let mut says = Vec::new(alloc);
    says.push(Say::Pass)?;
    says.push(Say::Speak {
        post: Post::Quiet,
        rings: RingList::new(alloc),
    })?;
    let mut mind = Scripted::new(says);
    for round in 0..6u32 {
        let said = mind.say(alloc, round).map_err(|_| "memory")?;
        assert_eq!(rt; said.speaks(), round == 2);
    }
    Ok(())
}
