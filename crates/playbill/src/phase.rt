//! The lines of the phases.

ghost use Rattle.std.specs.Prelude.{◌≡◌, ◌≤◌, ◌++◌, All, length, OnOk, string_bytes};
ghost use Rattle.scenes.specs.Law.{AreSides};
ghost use Rattle.playbill.specs.Text.{committee_words, moving_words, phase_line, phase_lines, scene_words, staying_words};

use field61::NumberList;
use lists::OutOfMemory;
use scenes::{Scene, Side};
use sizes::LANES;

// Appends a committee's size and bound.
fn put_committee(text: &mut String, side: &Side) -> Result<(), OutOfMemory>
    ensures { OnOk result (string_bytes text.new ≡ string_bytes text.old ++ committee_words side.now) }
{
    let n = side.members;
    let t = side.bound;
    write!(text, "{n} {t}")?;
    Ok(())
}

// Appends the words of a phase of one committee: how many of it are down.
fn put_staying(text: &mut String, verb: &str, side: &Side) -> Result<(), OutOfMemory>
    requires { side.now.members ≤ 30 }
    ensures { OnOk result (string_bytes text.new ≡ string_bytes text.old ++ staying_words verb.now side.now) }
{
    let faulty = side.down_count();
    write!(text, "{verb} ")?;
    put_committee(text, side)?;
    write!(text, " faulty {faulty}")?;
    Ok(())
}

// Appends the words of a move: how many of the old committee are down, and of the new one.
fn put_moving(text: &mut String, old: &Side, new: &Side) -> Result<(), OutOfMemory>
    requires old { old.now.members ≤ 30 }
    requires new { new.now.members ≤ 30 }
    ensures { OnOk result (string_bytes text.new ≡ string_bytes text.old ++ moving_words old.now new.now) }
{
    let leaving = old.down_count();
    let coming = new.down_count();
    write!(text, "move ")?;
    put_committee(text, old)?;
    write!(text, " to ")?;
    put_committee(text, new)?;
    write!(text, " faulty {leaving} {coming}")?;
    Ok(())
}

// Appends the words of a phase: its kind, its committees, and how many of each are down.
fn put_scene(text: &mut String, scene: &Scene) -> Result<(), OutOfMemory>
    requires { AreSides scene.now }
    ensures { OnOk result (string_bytes text.new ≡ string_bytes text.old ++ scene_words scene.now) }
{
    match scene {
        Scene::Create { side } => put_staying(text, "create", side),
        Scene::Refresh { side } => put_staying(text, "refresh", side),
        Scene::Move { old, new } => put_moving(text, old, new),
    }
}

// Appends the line of a phase in which so many instances were accepted.
fn put_phase(text: &mut String, scene: &Scene, accepted: u32) -> Result<(), OutOfMemory>
    requires { AreSides scene.now }
    ensures { OnOk result (string_bytes text.new ≡ string_bytes text.old ++ phase_line scene.now accepted) }
{
    let instances = LANES * scene.old_side().members;
    put_scene(text, scene)?;
    writeln!(text, " accepted {accepted} of {instances}")?;
    Ok(())
}

// Appends a line for each phase, by how many instances were accepted in it.
pub(crate) fn put_phases(
    text: &mut String,
    scenes: &[Scene],
    accepted: &NumberList,
) -> Result<(), OutOfMemory>
    requires counts { length accepted.now ≡ length scenes.now }
    requires sides { All AreSides scenes.now }
    ensures { OnOk result (string_bytes text.new ≡ string_bytes text.old ++ phase_lines scenes.now accepted.now) }
{
    for place in 0..scenes.len() {
        put_phase(text, &scenes[place], *accepted.at(place))?;
    }
    Ok(())
}
