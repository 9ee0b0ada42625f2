//! A line for each session.
ghost use Rattle.std.specs.Prelude.{◌≡◌, IfOk};
ghost use Rattle.seq_model.specs.Programs.{after, asked, replies_of};
ghost use Rattle.seq_model.specs.declared.job.Ask.TheVariants as ask;
ghost use Rattle.vac_model.specs.Actions.{IsAllowed};
ghost use Rattle.client_sessions.specs.Sessions.{session as plan_of};
ghost use Rattle.session_text.specs.Receipts.{AreLines, AreReceipts, IsLine};

use client_sessions::{Entry, Session};
use seq_model::{Memory, Record, Refusal};
use std::alloc::Global;
use text_formats::Line;
use vac_model::Action;

/// The result of each session, in the order of the actions: the number of its commit, and what it answered. Each receipt is one of
/// the session of the action at its position.
pub fn lines_of(
    alloc: Global,
    actions: &[Action],
    receipts: &[Record<Entry>],
) -> Result<Vec<Line>, Memory>
    requires { AreReceipts actions.now receipts.now }
    ensures { IfOk result (λ lines. AreLines actions.now receipts.now lines.items) }
{
    let mut lines = Vec::with_capacity(alloc, actions.len())?;
    let (mut left, mut unread) = (actions, receipts);
    while let Some((action, later)) = left.split_first() {
        let Some((receipt, behind)) = unread.split_first() else {
            unreachable!()
        };
        lines.push(line_for(alloc, action, receipt)?)?;
        left = later;
        unread = behind;
    }
    Ok(lines)
}

fn line_for(alloc: Global, action: &Action, receipt: &Record<Entry>) -> Result<Line, Memory>
    requires allowed { IsAllowed action.now }
    requires done { asked (after (plan_of action.now) (replies_of receipt.now.calls)) ≡ ask.Done }
    ensures { IfOk result (IsLine action.now receipt.now) }
{
    match Session::new(alloc, action) {
        Ok(session) => line_of(&session, receipt),
        Err(Refusal::Memory) => Err(Memory),
        Err(_) => unreachable!(),
    }
}

/// The result of a session that has this receipt: the number of its commit, and what it answered.
pub fn line_of(session: &Session, receipt: &Record<Entry>) -> Result<Line, Memory>
    requires { asked (after (plan_of session.now) (replies_of receipt.now.calls)) ≡ ask.Done }
    ensures { IfOk result (IsLine session.now receipt.now) }
{
    let reply = session.reply(receipt)?;
    Ok(Line::Done(receipt.number, reply))
}
