//! Laws on histories. Each function's contract is a law, and its body is empty.

ghost use Rattle.histories61.specs.Laws.{HistoryHasKey, KeyStays, MovesHaveErrors, OneErrors, OneKey, OnePolynomial, OneShare, PhasesFitTogether, PhasesHaveKey};
ghost use Rattle.histories61.specs.Playing.{HeardToItsEnd};
ghost use Rattle.histories61.specs.Same.{AgreeEndAlike};
ghost use Rattle.histories61.specs.Witness.{ExampleIsHistory};

/// In every period of a history the sound members' shares lie on one polynomial of degree at most the bound, in each lane.
/// All these polynomials have one value at 0, which is the key.
pub fn a_history_has_one_key()
    ensures history { HistoryHasKey }
    ensures phases { PhasesHaveKey }
    ensures polynomial { OnePolynomial }
    ensures one { OneKey }
    ensures stays { KeyStays }
{}

/// A move in a history always has its error vectors, and no others; so the plays alone determine the shares.
pub fn a_move_in_a_history_has_its_errors()
    ensures some { MovesHaveErrors }
    ensures one { OneErrors }
    ensures shares { OneShare }
{}

/// Phases of which each fits after those before it, whatever error vectors the moves among these have, fit together.
pub fn phases_that_fit_make_a_history()
    ensures { PhasesFitTogether }
{}

/// An honest receiver that hears, round by round, what is heard in a play comes to the end that the play defines.
pub fn a_play_is_heard_to_its_end()
    ensures { HeardToItsEnd }
{}

/// Two plays of one setting, with the same seats of it down, that agree in the honest dealers' grids and in what those who
/// are down say in its rounds, accept the same instances, give every receiver the same shares, and have the same sixth
/// round, where the setting has one.
pub fn plays_that_agree_end_alike()
    ensures { AgreeEndAlike }
{}

/// There are histories, with a move and with a member that is down.
pub fn there_are_histories()
    ensures { ExampleIsHistory }
{}
