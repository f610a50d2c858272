//! The drill of a phase, read from the shelf.
ghost use Rattle.std.specs.Prelude.{◌≡◌, ◌≤◌, ℕ, IfSome, IfOk, IfErr};
ghost use Rattle.shelf.specs.Causes.{OnlyReads};
ghost use Rattle.drillbook.specs.Orders.{AllLawful};
ghost use Rattle.drillbook.specs.Text.{drill_at, named_among};
ghost use Rattle.keyroom.specs.Causes.{IsFromPlan};
ghost use Rattle.keyroom.specs.Outcome.{AnswersStep};
ghost use Rattle.keyroom.specs.Commands.{text_of};
ghost use Rattle.commands.specs.Drill.{drill_read, drill_of};

use drillbook::{Drill, DrillFault, read_drill};
use keyroom::{Status, What, get};
use shelf::Shelf;
use std::alloc::Global;
use talk::Setting;

/// The drill that a text is.
fn drill_from(alloc: Global, text: &[u8], setting: &Setting) -> Result<Drill, Status>
    ensures gives { AnswersStep (λ d. d) result (drill_read (drill_at setting.now text.now)) }
    ensures lawful { IfOk result (λ d. AllLawful setting.now d) }
    ensures few { IfOk result (λ d. named_among d setting.now.shift setting.now.receivers ≤ setting.now.bound) }
    ensures cause { IfErr result (λ s. (before now : ℕ) → IsFromPlan before now s) }
{
    match read_drill(alloc, text, setting) {
        Ok(drill) => Ok(drill),
        Err(DrillFault::OutOfMemory) => Err(Status::OutOfMemory),
        Err(fault) => Err(Status::BadDrill { fault }),
    }
}

/// The drill of a phase: the one in the file that is named, or none. It refuses where the file isn't held, or its text is
/// no drill for this setting.
pub(crate) fn drill_of<H: Shelf>(
    alloc: Global,
    file: Option<&str>,
    setting: &Setting,
    shelf: &mut H,
) -> Result<Drill, Status>
    ensures reads { OnlyReads H.held H.fault_count H.calm shelf.old shelf.new }
    ensures gives { IfSome (H.held shelf.old) (λ m. AnswersStep (λ d. d) result (drill_of setting.now (text_of file.entry) m)) }
    ensures lawful { IfOk result (λ d. AllLawful setting.now d) }
    ensures few { IfOk result (λ d. named_among d setting.now.shift setting.now.receivers ≤ setting.now.bound) }
    ensures cause { IfErr result (IsFromPlan (H.fault_count shelf.old) (H.fault_count shelf.new)) }
{
    let Some(name) = file else {
        return Ok(Drill::none(alloc));
    };
    let Some(text) = get(alloc, name, shelf)? else {
        return Err(Status::NoSuch { what: What::Drill });
    };
    drill_from(alloc, &text, setting)
}
