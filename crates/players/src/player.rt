//! Minds that are drilled or scripted.

ghost use Rattle.std.specs.Prelude.{◌≡◌, ℕ, ◌+◌, ◌<◌};
ghost use Rattle.talk.specs.Hears.{StaysMade};
ghost use Rattle.talk.specs.Shape.{rounds};
ghost use Rattle.talk.specs.Sync.{ways};
ghost use Rattle.drillbook.specs.Word.{drilled_ways};
ghost use Rattle.players.specs.Script.{player_after_hear, player_after_say, player_made_for, player_may, player_word};
ghost use Rattle.players.specs.declared.player.Player.TheVariants.{Drilled, Scripted};

use crate::Scripted;
use drillbook::Drilled;
use lists::OutOfMemory;
use std::alloc::Global;
use talk::{Heard, Mind, Say};

/// What sits on a seat of a phase that is tried out: a mind under its drill, where the drill may say nothing of its
/// seat, or a script. It is a mind as the one inside is.
#[derive(Drop)]
pub enum Player<M: Mind> {
    /// It says what the drill makes of its inner mind's word.
    Drilled(Drilled<M>),
    /// It says its script.
    Scripted(Scripted),
}

impl<M: Mind> Mind for Player<M> {
    ghost made_for = { player_made_for ⟦<Drilled<M> as Mind>⟧.made_for };

    ghost may_say = { player_may ⟦<Drilled<M> as Mind>⟧.may_say };

    ghost may_hear = { player_may ⟦<Drilled<M> as Mind>⟧.may_hear };

    ghost word = { player_word ⟦<Drilled<M> as Mind>⟧.word };

    ghost after_say = { player_after_say ⟦<Drilled<M> as Mind>⟧.after_say };

    ghost after_hear = { player_after_hear ⟦<Drilled<M> as Mind>⟧.after_hear };

    ghost say_keeps = { λ p round. elim p as (λ k. Self.may_say k round → StaysMade (Self.made_for k) (Self.made_for (Self.after_say k round))) [ Drilled d ↦ λ may s seat. (λ m. (m.0, m.1, (M.say_keeps d.inner round may s seat).0 m.2), λ m. (m.0, m.1, (M.say_keeps d.inner round may s seat).1 m.2)) | Scripted says ↦ λ may s seat. (λ made. made, λ made. made) ] };

    ghost hear_keeps = { λ p round h. elim p as (λ k. Self.may_hear k round → StaysMade (Self.made_for k) (Self.made_for (Self.after_hear k round h))) [ Drilled d ↦ λ may s seat. (λ m. (m.0, m.1, (M.hear_keeps d.inner round h may s seat).0 m.2), λ m. (m.0, m.1, (M.hear_keeps d.inner round h may s seat).1 m.2)) | Scripted says ↦ λ may s seat. (λ made. made, λ made. made) ] };

    ghost hears_next = { λ p round. elim p as (λ k. Self.may_say k round → Self.may_hear (Self.after_say k round) round) [ Drilled d ↦ M.hears_next d.inner round | Scripted says ↦ λ may. tt ] };

    ghost says_next = { λ p round h s seat. elim p as (λ k. Self.may_hear k round → Self.made_for k s seat → round < rounds s → Self.may_say (Self.after_hear k round h) (round + 1)) [ Drilled d ↦ λ may made less. M.says_next d.inner round h s seat may made.2 less | Scripted says ↦ λ may made less. tt ] };

    fn say(&mut self, alloc: Global, round: u32) -> Result<Say, OutOfMemory> {
        match self {
            Player::Drilled(mind) => mind.say(alloc, round),
            Player::Scripted(mind) => mind.say(alloc, round),
        }
    }

    fn hear(&mut self, alloc: Global, round: u32, heard: Heard) -> Result<(), OutOfMemory> {
        match self {
            Player::Drilled(mind) => mind.hear(alloc, round, heard),
            Player::Scripted(mind) => mind.hear(alloc, round, heard),
        }
    }
}
