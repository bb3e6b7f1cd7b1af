//! The iteration in a turn that is on top of what is pending. It is changed where it stands: copies of it took a quarter of
//! a turn's instructions.

ghost use Rattle.std.specs.Prelude.{◌≡◌, ℕ, List, ◌∷◌};
ghost use Rattle.rule_machine.specs.declared.piece.Piece.TheVariants.{Turning};
ghost use Rattle.rule_machine.specs.declared.piece.Piece.{Piece as Pending};
ghost use Rattle.rule_machine.specs.declared.piece.Turn.{Turn as ATurn};
ghost use Rattle.rule_machine.specs.StandFor.{with_counts, turn_at};
ghost use Rattle.rule_machine.specs.Shown.{IsTurning};

use crate::piece::{Counts, Piece, Turn};
use crate::stack::ReservedStack;

/// The iteration in a turn that is on top.
#[inline(always)]
pub(crate) fn top_turn(pieces: &ReservedStack<Piece>) -> &Turn
    requires { IsTurning pieces.now.0 }
    ensures { (below : List Pending) × (pieces.now.0 ≡ Turning result.now ∷ below) }
{
    let Some(top) = pieces.items.last() else {
        unreachable!()
    };
    match top {
        Piece::Turning(turn) => turn,
        _ => unreachable!(),
    }
}

/// Writes what the iteration on top has counted, where it stands.
#[inline(always)]
pub(crate) fn set_counts(pieces: &mut ReservedStack<Piece>, counts: Counts)
    requires { IsTurning pieces.old.0 }
    ensures items { (t : ATurn) (below : List Pending) → pieces.old.0 ≡ Turning t ∷ below →
        pieces.new.0 ≡ Turning (with_counts t counts) ∷ below }
    ensures room { pieces.new.1 ≡ pieces.old.1 }
{
    let at = pieces.items.len() - 1;
    match &mut pieces.items[at] {
        Piece::Turning(turn) => {
            turn.kept = counts.kept;
            turn.trues = counts.trues;
            turn.falses = counts.falses;
            turn.invalids = counts.invalids;
        }
        _ => unreachable!(),
    }
}

/// Writes the index of the next element of the iteration on top, where it stands.
#[inline(always)]
pub(crate) fn set_next(pieces: &mut ReservedStack<Piece>, next: usize)
    requires { IsTurning pieces.old.0 }
    ensures items { (t : ATurn) (below : List Pending) → pieces.old.0 ≡ Turning t ∷ below →
        pieces.new.0 ≡ Turning (turn_at t next) ∷ below }
    ensures room { pieces.new.1 ≡ pieces.old.1 }
{
    let at = pieces.items.len() - 1;
    match &mut pieces.items[at] {
        Piece::Turning(turn) => turn.next = next,
        _ => unreachable!(),
    }
}
