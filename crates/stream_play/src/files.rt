//! Stream files, played on a player that is made for them.

ghost use Rattle.std.specs.Prelude.{◌≡◌, [], ◌∷◌, length, IfOk};
ghost use Rattle.capture_desk.specs.Desks.{IsAllowed};
ghost use Rattle.command_steps.specs.Inputs.{OfInput};
ghost use Rattle.command_steps.specs.Reading.{Takes};
ghost use Rattle.stream_play.specs.Plays.{PlaysAll};
ghost use Rattle.stream_play.specs.Runs.{a_stream_file};

use crate::play::play;
use crate::player::Player;
use crate::reports::Reports;
use capture_desk::Desk;
use command_steps::{PIECE, open};
use command_texts::{Refusal, ShortText};
use std::alloc::Global;

/// Opens an input and plays its stream to its end.
fn play_input<D: Desk, P: Player>(
    player: &mut P,
    name: &str,
    desk: &mut D,
    buffer: &mut [u8],
) -> Result<(), Refusal>
    requires allowed { IsAllowed name.now (D.seen desk.old).told.may_open }
    requires room { length buffer.old ≡ 65536 }
    ensures played { IfOk result
        (λ _. OfInput name.now (D.seen desk.old).told.inputs (λ bytes. PlaysAll P.act P.has_slots bytes player.old player.new)) }
    ensures takes { Takes (a_stream_file P.has_slots name.now ∷ []) result (D.seen desk.old) (D.seen desk.new) }
{
    open(name, desk)?;
    play(player, desk, buffer)
}

/// Plays a whole stream file on a player, and gives the player back. The memory that this takes is taken
/// before the stream is opened. A stream is refused as `Malformed` at its first fault (the forms of
/// streams are this project's own).
pub fn play_file<D: Desk, P: Player + Drop>(
    alloc: Global,
    player: P,
    stream: &str,
    desk: &mut D,
) -> Result<P, Refusal>
    requires { IsAllowed stream.now (D.seen desk.old).told.may_open }
    ensures played { IfOk result
        (λ after. OfInput stream.now (D.seen desk.old).told.inputs (λ bytes. PlaysAll P.act P.has_slots bytes player after)) }
    ensures takes { Takes (a_stream_file P.has_slots stream.now ∷ []) result (D.seen desk.old) (D.seen desk.new) }
{
    let mut player = player;
    let mut buffer = vec![in alloc; 0; PIECE]?;
    play_input(&mut player, stream, desk, &mut buffer)?;
    Ok(player)
}

/// A player after its stream, and the text that is printed of it.
#[derive(Drop)]
pub struct Played<P> {
    /// The player after all steps of the stream.
    pub player: P,
    /// What is printed of it.
    pub text: ShortText,
}

/// Plays a whole stream file on a player as `play_file`, and makes the text that is printed of it. All memory is taken
/// before the stream is opened.
pub fn play_and_tell<D: Desk, P: Player + Reports + Drop>(
    alloc: Global,
    player: P,
    stream: &str,
    desk: &mut D,
) -> Result<Played<P>, Refusal>
    requires { IsAllowed stream.now (D.seen desk.old).told.may_open }
    ensures played { IfOk result
        (λ played. OfInput stream.now (D.seen desk.old).told.inputs (λ bytes. PlaysAll P.act P.has_slots bytes player played.player)) }
    ensures text { IfOk result (λ played. played.text ≡ P.told played.player) }
    ensures takes { Takes (a_stream_file P.has_slots stream.now ∷ []) result (D.seen desk.old) (D.seen desk.new) }
{
    let player = play_file(alloc, player, stream, desk)?;
    let text = player.text();
    Ok(Played { player, text })
}
