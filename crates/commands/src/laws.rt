//! Laws on what a create, a refresh and a move mean.
ghost use Rattle.commands.specs.Agreement.{CreatesOnOneLine};
ghost use Rattle.commands.specs.Begins.{PeriodsGoOn};
ghost use Rattle.commands.specs.Kept.{RefreshesByOne, RefreshesKeepTheKey};
ghost use Rattle.commands.specs.Moved.{MovesCarryPolynomials, MovesNameTheirLane, SoundMovesHaveWords, MovesKeepTheKey};
ghost use Rattle.commands.specs.Uncut.{LateInCreate, LateInRefresh, UncutCreatesAreDone, UncutRefreshesAreDone};

/// The share files that a create puts, whatever its drilled members say, lie in each lane on one polynomial of degree at
/// most T, where they are valid share files of the key.
pub fn created_share_files_lie_on_one_polynomial()
    ensures { CreatesOnOneLine }
{}

/// A next period begins with one change, the put of its now file: up to there the now file and the share files that stood
/// are left, and from there on the share files of the new period are there, and nothing touches them.
pub fn a_next_period_begins_with_one_change()
    ensures { PeriodsGoOn }
{}

/// A refresh adds shares of 0: in each lane there is one polynomial h of degree at most T - 1 such that the new share of
/// each member j that gets a share file is its old one plus j times h (j), whatever the drilled members say.
pub fn a_refresh_adds_shares_of_zero()
    ensures { RefreshesByOne }
{}

/// A refresh keeps the key: where N - T members that are neither drilled nor late have valid share files that lie on polynomials
/// of degree at most T, so do N - T members' after each part of its changes from the front, and the values at 0 are the same.
pub fn a_refresh_keeps_the_key()
    ensures { RefreshesKeepTheKey }
{}

/// A move carries polynomials: in each lane some polynomial of degree at most T differs from what the old members shared at
/// no more than T of them, and for each that does the new share files lie on one polynomial of degree at most U with the
/// same value at 0. What a member with a valid share file shared is its share, where no order names it and it isn't late.
pub fn a_move_carries_polynomials()
    ensures { MovesCarryPolynomials }
{}

/// A move that is refused for want of an error vector names the least lane in which no polynomial is so near to what was
/// shared, with the syndrome of that.
pub fn a_move_without_a_word_names_its_lane()
    ensures { MovesNameTheirLane }
{}

/// No move is so refused where N - T members that are neither drilled nor late have valid share files that lie on polynomials
/// of degree at most T.
pub fn a_move_of_sound_files_has_a_word()
    ensures { SoundMovesHaveWords }
{}

/// A move keeps the key: where N - T members that are neither drilled nor late have valid share files that lie on polynomials of
/// degree at most T, the valid share files of the committee whose now file is held lie on polynomials with the same values at 0,
/// all but T or U of them, after each part of the changes from the front.
pub fn a_move_keeps_the_key()
    ensures { MovesKeepTheKey }
{}

/// A seat that is late was cut in some round of the phase.
pub fn who_is_late_was_cut()
    ensures create { LateInCreate }
    ensures refresh { LateInRefresh }
{}

/// Where nobody is cut nobody is late, so a create or a refresh that comes to its phase is done: `TooFewSound` comes behind
/// the phase only where members were cut.
pub fn nobody_is_late_uncut()
    ensures create { UncutCreatesAreDone }
    ensures refresh { UncutRefreshesAreDone }
{}
