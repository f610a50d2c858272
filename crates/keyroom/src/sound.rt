//! Who takes an honest part in a phase of a key that is there, and what the phase asks of the committee and its period.
ghost use Rattle.std.specs.Prelude.{◌≡◌, ◌≤◌, ◌<◌, ℕ, length, IfOk, IfErr};
ghost use Rattle.sharing61.specs.Count.{how_many};
ghost use Rattle.drillbook.specs.Orders.{names};
ghost use Rattle.keyroom.specs.Causes.{IsFromPlan};
ghost use Rattle.keyroom.specs.Outcome.{AnswersStep};
ghost use Rattle.keyroom.specs.Sound.{is_valid, is_down, is_down_in_move, sound_among, enough_sound, next_period_of};

use crate::status::Status;
use crate::steps::Found;
use drillbook::Drill;
use sharefile::NowFile;

impl Found {
    /// Whether it is the member's valid share file.
    pub fn is_valid(&self) -> bool
        ensures { result ≡ is_valid self.now }
    {
        match self {
            Found::Absent => false,
            Found::Invalid => false,
            Found::Valid(_) => true,
        }
    }
}

/// Whether a member is down: the drill names it, or it has no valid share file. The files are by member, from member 1.
pub fn is_down(files: &[Found], drill: &Drill, index: u32) -> bool
    requires from { 1 ≤ index }
    requires to { index ≤ length files.now }
    ensures { result ≡ is_down (names drill.now) files.now index }
{
    drill.names(index) || !files[(index - 1) as usize].is_valid()
}

/// Whether a seat of a move is down, in which the old members, whose files these are, sit on the first seats and the new
/// ones behind them: an old member as in a refresh, a new one exactly where the drill names its seat.
pub fn is_down_in_move(files: &[Found], drill: &Drill, seat: u32) -> bool
    requires { 1 ≤ seat }
    ensures { result ≡ is_down_in_move (names drill.now) files.now seat }
{
    if seat as usize <= files.len() {
        is_down(files, drill, seat)
    } else {
        drill.names(seat)
    }
}

/// How many members are sound: they aren't down.
pub fn sound_count(files: &[Found], drill: &Drill) -> u32
    requires few { length files.now ≤ 15 }
    ensures { result ≡ length (sound_among (names drill.now) files.now) }
{
    let mut count = 0;
    for index in 1..files.len() as u32 + 1 {
        if !is_down(files, drill, index) {
            count += 1;
        }
    }
    count
}

/// Sees that N - T members at least are sound. It refuses with `TooFewSound` where fewer are.
pub fn check_sound(now: &NowFile, files: &[Found], drill: &Drill) -> Result<(), Status>
    requires count { length files.now ≡ now.now.n }
    ensures gives { AnswersStep (λ enough. enough) result (enough_sound now.now (sound_among (names drill.now) files.now)) }
    ensures few { IfOk result (λ _. how_many now.now.n (is_down (names drill.now) files.now) ≤ now.now.t) }
    ensures cause { IfErr result (λ s. (first last : ℕ) → IsFromPlan first last s) }
{
    let needed = now.n - now.t;
    let sound = sound_count(files, drill);
    if sound < needed {
        return Err(Status::TooFewSound { sound, needed });
    }
    Ok(())
}

/// Sees that there is a period after the now file's, and gives it. It refuses with `Full` where the period is 4294967295.
pub fn check_period(now: &NowFile) -> Result<u32, Status>
    ensures gives { AnswersStep (λ period. period) result (next_period_of now.now) }
    ensures cause { IfErr result (λ s. (first last : ℕ) → IsFromPlan first last s) }
{
    let number = now.period;
    if number == u32::MAX {
        return Err(Status::Full { number });
    }
    Ok(number + 1)
}
