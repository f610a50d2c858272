//! Laws on plays. Each function's contract is a law, and its body is empty.

ghost use Rattle.plays.specs.Law.{CreatedLine, HonestDealersInPlays, PlaysAgree, PlaysAreProper};
ghost use Rattle.plays.specs.Run.{RunIsHeard, RunIsPlay, RunMakesPlay};

/// A play of a lawful setting in which at most the bound of receivers is down is as the law of agreement asks: the
/// honest grids are of the setting's degree, and what the seats that are down say has its shape.
#[tactic(auto, using(crate::proofs::Proper::plays_are_proper))]
pub fn plays_with_few_down_are_proper()
    ensures { PlaysAreProper }
{}

/// In such a play the pairs of the honest receivers in an accepted instance lie on one grid of the setting's degree.
/// An honest dealer's instance is accepted, and ends with its own grid.
pub fn accepted_instances_of_a_play_have_one_grid_each()
    ensures agree { PlaysAgree }
    ensures honest { HonestDealersInPlays }
{}

/// And in each lane the created shares of the honest receivers lie on one polynomial of degree at most the setting's.
#[tactic(auto, using(crate::proofs::Lanes::created_line))]
pub fn created_shares_lie_on_one_polynomial()
    ensures { CreatedLine }
{}

/// A run in which the honest seats go by the rules, whatever the seats that are down say, is a play: every honest
/// receiver ends with the pairs and the accepted instances that the play defines, and everybody hears of every seat
/// what the play says.
pub fn run_ends_as_its_play()
    ensures ends { RunIsPlay }
    ensures play { RunMakesPlay }
    ensures heard { RunIsHeard }
{}
