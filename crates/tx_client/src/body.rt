//! What runs as one transaction.
ghost use Rattle.std.specs.Prelude.{IfErr, IfOk};

use crate::scope::Scope;
use crate::transaction::Transaction;
use seq_model::Refusal;

/// What runs as one transaction: straight code over its calls, with loops and helper functions.
///
/// - A refusal of a call is passed on by `?`. After a conflict the body is attempted again, from its beginning: so it may run more than
///   once, and should change nothing but what the transaction changes.
/// - A body aborts by returning an error of its own (`Error`), which reaches the caller as `Failure::Aborted`; what it changed is
///   undone. A body that never does so has `type Error = Refusal`.
/// - What it returns (`Out`) reaches the caller once the transaction has committed.
///
/// A helper function over the transaction takes any scope: `fn total<S: Scope<V>>(tx: &mut Transaction<'_, V, S>) -> Result<u64, Refusal>`.
///
/// For a proof of what transactions do, define `makes` (the body, what it returned, and the calls that the transaction made, each with its
/// reply) or `aborts` (the same of an error that it returned). Left out, they say nothing.
pub trait Body<V> {
    ghost use Rattle.std.specs.Prelude.{List, ⊤};
    ghost use Rattle.seq_model.specs.declared.call.Call.{Call as ACall};
    ghost use Rattle.seq_model.specs.declared.call.Reply.{Reply as AReply};

    /// What the body returns.
    type Out: Drop;
    /// Why it may abort.
    type Error: From<Refusal> + Drop;

    ghost makes: { Self → Self.Out → List (ACall V × AReply V) → Type 0 } = { λ _ _ _. ⊤ };

    ghost aborts: { Self → Self.Error → List (ACall V × AReply V) → Type 0 } = { λ _ _ _. ⊤ };

    /// Runs in a transaction.
    ///
    /// ```
    /// fn run<S: Scope<u64>>(&self, tx: &mut Transaction<'_, u64, S>) -> Result<u64, Refusal> {
    ///     let number = self.0.read(tx)?;
    ///     self.0.write(tx, number.saturating_add(1))?;
    ///     Ok(number)
    /// }
    /// ```
    fn run<S: Scope<V>>(&self, tx: &mut Transaction<'_, V, S>) -> Result<Self::Out, Self::Error>
        ensures makes { IfOk result (λ out. makes self.now out tx.new.calls) }
        ensures aborts { IfErr result (λ error. aborts self.now error tx.new.calls) };
}
