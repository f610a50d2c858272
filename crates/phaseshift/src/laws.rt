//! A law on other phases. Its contract is the law, and its body is empty.

ghost use Rattle.phaseshift.specs.Shift.{OtherPhaseIsTranslated};

/// The play of the other phase is the translated play.
pub fn the_other_phase_is_the_translated_play()
    ensures { OtherPhaseIsTranslated }
{}
