//! What a call makes of an actor that holds the gate of its collection.
ghost use Rattle.std.specs.Prelude.{◌≡◌, ℕ, Some, false, true, if◌then◌else◌};
ghost use Rattle.conflict.specs.RoomMap.{Room};
ghost use Rattle.seq_model.specs.declared.call.Op.{Op};
ghost use Rattle.replay_log.specs.declared.base.Base.{Base};
ghost use Rattle.replay_log.specs.declared.touch.Touch.{Touch};
ghost use Rattle.replay_log.specs.Base.{Shown, shown_of, stripes_of};
ghost use Rattle.replay_log.specs.Parts.{kind_of};
ghost use Rattle.replay_log.specs.Pieces.{Piece, is_piece, piece_of};
ghost use Rattle.replay_log.specs.Touches.{summed_by};
ghost use Rattle.shadow.specs.Memo.{MemoView};
ghost use Rattle.actor_parts.specs.declared.copies.PrivateCopy.{PrivateCopy};
ghost use Rattle.actor_parts.specs.declared.copies.PrivateCopy.TheVariants.{Keys};
ghost use Rattle.actor_parts.specs.declared.copies.BaseExcerpt.{BaseExcerpt};
ghost use Rattle.actor_parts.specs.PrivateCopy.{IsFound, IsLearnt, has_piece};
ghost use Rattle.actor_parts.specs.First.{IsFirst};
ghost use Rattle.actor_parts.specs.CopyAtGate.{CopiesFor, CopiesReached, ForgetsPieces};
ghost use Rattle.actor_parts.specs.PutBack.{KeepsCopies, ReadsCopies};

use seq_model::Value;

/// What is copied for a call, in every world that events have reached. It is the transaction's own, as it was, or a location of the call
/// was read with another edition, so that it is never accepted. It is judged with the editions of the base, and finds room where the
/// definitions' outcome does.
pub fn excerpts_as_worlds<V: Value>()
    ensures { CopiesFor V }
{}

/// What a call results in once it is copied and its gate put back, in every world that events have reached. Where its locations fit the
/// sets and have all been read with the editions of the base, it may be accepted; a location that is to be read next has not been written.
pub fn copies_go_on<V: Value>()
    ensures { CopiesReached V }
{}

/// What there is of a call's collection once its gate is put back. What there was before is the transaction's own still, and read, wherever
/// events have led, so that a call that is not made leaves it. What is copied for the call is its own, and read, once the call's locations
/// have been read with the copied editions; where one was read with another, they never are.
pub fn copies_put_back<V: Value>()
    ensures kept { KeepsCopies V }
    ensures read { ReadsCopies V }
{}

/// What was learnt for a call that is not made and is forgotten leaves the pieces that there were.
pub fn forgetting_leaves_pieces<V: Value>()
    ensures { ForgetsPieces V }
{}

/// What is copied for a call: there are then the pieces that there were, and the one that the call touches; at first that one alone.
pub fn taking_adds_a_piece<V: Value>()
    ensures learnt { (n : ℕ) (op : Op V) (s : Shown V) (t : Touch V) (m : MemoView V) (es : Room ℕ) (d : PrivateCopy V) (q : Piece) →
        summed_by n op s ≡ Some t.held → kind_of (shown_of m.blank) ≡ kind_of s → IsLearnt t (Keys m es) d →
        has_piece d q ≡ (if is_piece (piece_of (kind_of s) op) q then true else has_piece (Keys m es) q) }
    ensures first { (base : Base V) (op : Op V) (x : BaseExcerpt V) (d : PrivateCopy V) (q : Piece) → IsFound base op x →
        IsFirst (stripes_of base) x d →
        has_piece d q ≡ (if is_piece (piece_of (kind_of (shown_of base)) op) q then true else false) }
{}
