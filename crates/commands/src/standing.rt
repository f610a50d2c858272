//! What a command finds that begins the next period of a key.
ghost use Rattle.std.specs.Prelude.{◌≡◌, ◌≤◌, ◌<◌, ℕ, length, count_by, IfOk, IfSome, IfErr};
ghost use Rattle.shelf.specs.Causes.{OnlyReads};
ghost use Rattle.drillbook.specs.Orders.{names, AllLawful};
ghost use Rattle.drillbook.specs.Text.{named_among};
ghost use Rattle.sharing61.specs.Count.{how_many};
ghost use Rattle.keyroom.specs.Causes.{IsFromPlan};
ghost use Rattle.keyroom.specs.Outcome.{AnswersStep};
ghost use Rattle.keyroom.specs.Commands.{text_of};
ghost use Rattle.keyroom.specs.Sound.{is_down, is_valid};
ghost use Rattle.commands.specs.Standing.{may_go_on, standing_at};
ghost use Rattle.commands.specs.Phase.{standing_of, IsReady};

use crate::drill::drill_of;
use drillbook::Drill;
use keyroom::{Found, Status, check_period, check_sound, files_of};
use sharefile::NowFile;
use shelf::Shelf;
use std::alloc::Global;
use talk::Setting;

/// Where the key stands, what stands under the names of its members' share files, and the drill.
#[derive(Drop)]
pub struct Asked {
    /// The key's now file.
    pub file: NowFile,
    /// What stands under the names of the share files, by index from member 1.
    pub files: Vec<Found>,
    /// Whom the drill tells what.
    pub drill: Drill,
}

/// Sees that the key may go on to its next period, and gives that: enough members are sound, and the period isn't the
/// last one.
fn check_next(now: &NowFile, files: &[Found], drill: &Drill) -> Result<u32, Status>
    requires count { length files.now ≡ now.now.n }
    ensures gives { AnswersStep (λ period. period) result (may_go_on now.now files.now drill.now) }
    ensures few { IfOk result (λ _. how_many now.now.n (is_down (names drill.now) files.now) ≤ now.now.t) }
    ensures next { IfOk result (λ _. now.now.period < 4294967295) }
    ensures cause { IfErr result (λ s. (before last : ℕ) → IsFromPlan before last s) }
{
    check_sound(now, files, drill)?;
    let period = check_period(now)?;
    Ok(period)
}

/// What is found behind the now file, for a phase of this setting. It refuses as `drill_of` does, with `TooFewSound` where
/// fewer than N - T members are sound, and with `Full` where the period is the last one.
pub(crate) fn standing_at<H: Shelf>(
    alloc: Global,
    now: NowFile,
    drill: Option<&str>,
    setting: &Setting,
    shelf: &mut H,
) -> Result<Asked, Status>
    ensures reads { OnlyReads H.held H.fault_count H.calm shelf.old shelf.new }
    ensures gives { IfSome (H.held shelf.old) (λ m. AnswersStep standing_of result (standing_at setting.now (text_of drill.entry) m now)) }
    ensures same { IfOk result (λ asked. asked.file ≡ now) }
    ensures ready { IfOk result (λ asked. IsReady (standing_of asked)) }
    ensures lines { IfOk result (λ asked. AllLawful setting.now asked.drill) }
    ensures few { IfOk result (λ asked. named_among asked.drill setting.now.shift setting.now.receivers ≤ setting.now.bound) }
    ensures cause { IfErr result (IsFromPlan (H.fault_count shelf.old) (H.fault_count shelf.new)) }
{
    let files = files_of(alloc, &now, shelf)?;
    let drill = drill_of(alloc, drill, setting, shelf)?;
    let _period = check_next(&now, &files, &drill)?;
    Ok(Asked {
        file: now,
        files,
        drill,
    })
}

/// How many members have a valid share file.
pub(crate) fn valid_count(files: &[Found]) -> u32
    requires { length files.now ≤ 15 }
    ensures { result ≡ count_by is_valid files.now }
{
    let mut count = 0;
    for file in files {
        if file.is_valid() {
            count += 1;
        }
    }
    count
}
