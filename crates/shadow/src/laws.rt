//! The laws of the definitions that the contracts cite. The functions compute nothing: their contracts are the laws.
ghost use Rattle.std.specs.Prelude.{◌≡◌, ◌<◌, ◌++◌, ℕ, [], List, Option, Some, None, true};
ghost use Rattle.std.specs.Ordering.{nat_cmp};
ghost use Rattle.std.specs.FinMap.{FinMap, empty};
ghost use Rattle.seq_model.specs.declared.call.Op.{Op};
ghost use Rattle.seq_model.specs.declared.call.Op.TheVariants.{Len};
ghost use Rattle.seq_model.specs.Counts.{Multiset};
ghost use Rattle.conflict.specs.declared.change.Change.{Change};
ghost use Rattle.conflict.specs.declared.outcome.Outcome.{Outcome};
ghost use Rattle.replay_log.specs.Base.{Shown, OfMap, OfBag, after, changes_of, outcome_of};
ghost use Rattle.replay_log.specs.declared.touch.TouchedKey.{TouchedKey};
ghost use Rattle.replay_log.specs.Touches.{summed_by, touched_by};
ghost use Rattle.shadow.specs.Memo.{IsAlike, IsCopyBy, IsCountedBy, IsOfBy, IsShown, answer_by, answer_with, copies_kept, entries_kept};
ghost use Rattle.shadow.specs.Memo.{grown_kept, holds_by, holds_with, shrunk_kept, with_count, with_entry, with_total};
ghost use Rattle.shadow.specs.Shadow.{IsFolded};

use seq_model::Value;

/// The log folded into the base that was copied gives what the shadow shows: it is so before the first call, and after each acceptance,
/// which appends its changes to the log and makes them on the copy.
pub fn folds<V: Value>()
    ensures first { (copied : Shown V) → IsFolded copied [] copied }
    ensures next { (copied shown : Shown V) (changes more : List (Change V)) →
        IsFolded copied changes shown → IsFolded copied (changes ++ more) (after more shown) }
{}

/// A memo is of a collection where that collection, after the accepted changes, shows what the memo keeps of each key held. With no key it
/// is of every map, or of every multiset. It still is as it holds what was touched of that collection, and after each acceptance, which
/// holds the same keys. Its answer on a key that is held is then that collection's after the accepted changes.
pub fn memos<V: Value>()
    ensures map { (m : FinMap nat_cmp V) → IsOfBy (OfMap empty) empty empty [] (OfMap m) }
    ensures bag { (m : Multiset) → (let none : Shown V = OfBag empty in IsOfBy none empty empty [] (OfBag m)) }
    ensures touched { (n : ℕ) (op : Op V) (s : Shown V) (t : TouchedKey V) → touched_by n op s ≡ Some t → IsShown n t s }
    ensures summed { (n : ℕ) (op : Op V) (s : Shown V) (t : TouchedKey V) → summed_by n op s ≡ Some t → IsShown n t s }
    ensures added { (n : ℕ) (t : TouchedKey V) (b s : Shown V) (es : FinMap nat_cmp (Option V)) (cs : FinMap nat_cmp ℕ)
        (changes : List (Change V)) → IsOfBy b es cs changes s → IsShown n t s → IsOfBy b (with_entry t es) (with_count t cs) changes s }
    ensures answered { (op : Op V) (b s : Shown V) (es : FinMap nat_cmp (Option V)) (cs : FinMap nat_cmp ℕ) (changes : List (Change V))
        (o : Outcome V) →
        holds_by b es cs op ≡ true → IsOfBy b es cs changes s → answer_by b es cs op ≡ Some o → outcome_of op (after changes s) ≡ Some o }
    ensures accepted { (o : Outcome V) (b s : Shown V) (es : FinMap nat_cmp (Option V)) (cs : FinMap nat_cmp ℕ)
        (changes : List (Change V)) →
        holds_by b es cs o.op ≡ true → IsOfBy b es cs changes s →
        IsOfBy b (entries_kept b o es) (copies_kept b o cs) (changes ++ changes_of o b) s }
    ensures held { (o : Outcome V) (b : Shown V) (es : FinMap nat_cmp (Option V)) (cs : FinMap nat_cmp ℕ) (op : Op V) →
        holds_by b es cs o.op ≡ true → holds_by b (entries_kept b o es) (copies_kept b o cs) op ≡ holds_by b es cs op }
{}

/// A memo of a map knows by how many keys the accepted calls made it grow and shrink, and with the number of keys, or the counts of all
/// stripes, which may be touched before or after them, how many there were before. It is so with no key, as it holds what was touched of
/// that map, and after each acceptance of a call that has the outcome that it has there. Its answer on the number of all keys, where that
/// is held, is then that map's after the accepted changes.
pub fn lengths<V: Value>()
    ensures map { (m : FinMap nat_cmp V) → IsCountedBy (OfMap empty) None 0 0 [] (OfMap m) }
    ensures added { (n : ℕ) (t : TouchedKey V) (b s : Shown V) (total : Option ℕ) (grown shrunk : ℕ) (changes : List (Change V)) → 0 < n →
        IsCountedBy b total grown shrunk changes s → IsShown n t s → IsCountedBy b (with_total t total) grown shrunk changes s }
    ensures answered { (b s : Shown V) (es : FinMap nat_cmp (Option V)) (cs : FinMap nat_cmp ℕ) (total : Option ℕ) (grown shrunk : ℕ)
        (changes : List (Change V)) (o : Outcome V) →
        holds_with b es cs total Len ≡ true → IsCountedBy b total grown shrunk changes s →
        answer_with b es cs total grown shrunk Len ≡ Some o →
        outcome_of Len (after changes s) ≡ Some o }
    ensures accepted { (o : Outcome V) (b s : Shown V) (total : Option ℕ) (grown shrunk : ℕ) (changes : List (Change V)) →
        outcome_of o.op (after changes s) ≡ Some o → IsCountedBy b total grown shrunk changes s →
        IsCountedBy b total (grown_kept b o grown) (shrunk_kept b o shrunk) (changes ++ changes_of o b) s }
{}

/// A memo is a copy of a collection where what it keeps is of each that answers alike every call whose key is held: so it still is one
/// while other keys of the collection change. It is so with no key, with what is touched of the collection, and after each acceptance of an
/// answer of its own, after which the same keys are held. On a key that is held it answers as the collection does after the accepted
/// changes.
pub fn copies<V: Value>()
    ensures map { (m : FinMap nat_cmp V) → IsCopyBy (OfMap empty) empty empty None 0 0 [] (OfMap m) }
    ensures bag { (m : Multiset) → (let none : Shown V = OfBag empty in IsCopyBy none empty empty None 0 0 [] (OfBag m)) }
    ensures moved { (b s u : Shown V) (es : FinMap nat_cmp (Option V)) (cs : FinMap nat_cmp ℕ) (total : Option ℕ) (grown shrunk : ℕ)
        (changes : List (Change V)) →
        IsCopyBy b es cs total grown shrunk changes s → IsAlike b es cs total s u → IsCopyBy b es cs total grown shrunk changes u }
    ensures touched { (n : ℕ) (op : Op V) (t : TouchedKey V) (b s : Shown V) (es : FinMap nat_cmp (Option V)) (cs : FinMap nat_cmp ℕ)
        (total : Option ℕ) (grown shrunk : ℕ) (changes : List (Change V)) → 0 < n → touched_by n op s ≡ Some t →
        IsCopyBy b es cs total grown shrunk changes s →
        IsCopyBy b (with_entry t es) (with_count t cs) (with_total t total) grown shrunk changes s }
    ensures summed { (n : ℕ) (op : Op V) (t : TouchedKey V) (b s : Shown V) (es : FinMap nat_cmp (Option V)) (cs : FinMap nat_cmp ℕ)
        (total : Option ℕ) (grown shrunk : ℕ) (changes : List (Change V)) → 0 < n → summed_by n op s ≡ Some t →
        IsCopyBy b es cs total grown shrunk changes s →
        IsCopyBy b (with_entry t es) (with_count t cs) (with_total t total) grown shrunk changes s }
    ensures answered { (op : Op V) (b s : Shown V) (es : FinMap nat_cmp (Option V)) (cs : FinMap nat_cmp ℕ) (total : Option ℕ)
        (grown shrunk : ℕ) (changes : List (Change V)) (o : Outcome V) → holds_with b es cs total op ≡ true →
        IsCopyBy b es cs total grown shrunk changes s → answer_with b es cs total grown shrunk op ≡ Some o →
        outcome_of op (after changes s) ≡ Some o }
    ensures accepted { (o : Outcome V) (b s : Shown V) (es : FinMap nat_cmp (Option V)) (cs : FinMap nat_cmp ℕ) (total : Option ℕ)
        (grown shrunk : ℕ) (changes : List (Change V)) → holds_with b es cs total o.op ≡ true →
        answer_with b es cs total grown shrunk o.op ≡ Some o → IsCopyBy b es cs total grown shrunk changes s →
        IsCopyBy b (entries_kept b o es) (copies_kept b o cs) total (grown_kept b o grown) (shrunk_kept b o shrunk)
        (changes ++ changes_of o b) s }
    ensures held { (o : Outcome V) (b : Shown V) (es : FinMap nat_cmp (Option V)) (cs : FinMap nat_cmp ℕ) (total : Option ℕ) (op : Op V) →
        holds_with b es cs total o.op ≡ true →
        holds_with b (entries_kept b o es) (copies_kept b o cs) total op ≡ holds_with b es cs total op }
{}
