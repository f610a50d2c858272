//! Laws of the record of a play. Each function's contract is a law, and its body is empty.

ghost use Rattle.hearsay.specs.Laws.{RecordEndsAlike, RecordHasFewDown, RecordIsKept, RecordIsPlay};

/// The record of a play is kept as every phase has to be: where the play is one of its setting, and the grids of the
/// dealers that aren't down are of the setting's degree.
pub fn the_record_of_a_play_is_kept()
    ensures { RecordIsKept }
{}

/// The record of a play is a play of the same setting, has as few down, and ends as the play does: the same instances
/// are accepted, every receiver has the same shares, and a sixth round is the same.
pub fn the_record_of_a_play_ends_as_the_play()
    ensures play { RecordIsPlay }
    ensures few { RecordHasFewDown }
    ensures ends { RecordEndsAlike }
{}
