//! Laws on the minds of a move and on what they come to. Each function's contract is a law, and its body is empty.

ghost use Rattle.moveshare.specs.Laws.{ComesToPlay, MindsGo};

/// The mind of each seat that takes part goes like a mover, an old member's and a new member's alike. So the laws on
/// movers in a run hold of these minds.
pub fn minds_of_a_move_go_like_movers()
    ensures { MindsGo }
{}

/// What a new member comes to in the end is what the play of its run defines: its shares are the moved shares under the
/// play's error vectors, or the move has no result for the lane and the syndrome that it names. It is never that a lane
/// isn't opened, where at most the new committee's bound are down.
pub fn members_come_to_what_their_play_defines()
    ensures { ComesToPlay }
{}
