//! The world that a script's header opens, taken apart, so that it can be seen what a step is to touch.
ghost use Rattle.std.specs.Prelude.{IfErr, IfOk, OnOk};
ghost use Rattle.step_world.specs.Parts.{HasWorld};
ghost use Rattle.session_text.specs.Scripts.{IsRefusedScript};

use seq_model::{Event, Memory, Notice, Refusal};
use session_text::{opening_of, shape_of};
use std::alloc::Global;
use step_world::Parts;
use text_formats::Script;

/// The parts of the world that the script's header opens.
///
/// `TooLong` where the header is beyond a limit, and `Memory` where an allocation failed.
pub(crate) fn open(alloc: Global, script: &Script) -> Result<Parts<u64>, Refusal>
    ensures world { IfOk result HasWorld }
    ensures refused { IfErr result (IsRefusedScript script.now) }
{
    let shape = shape_of(alloc, script)?;
    let opening = opening_of(alloc, script)?;
    Parts::open(alloc, &shape, opening)
}

/// An event, and its notice. After `Memory` the parts may be no world's.
pub(crate) fn feed(parts: &mut Parts<u64>, event: Event<u64>) -> Result<Notice<u64>, Memory>
    requires { HasWorld parts.old }
    ensures { OnOk result (HasWorld parts.new) }
{
    let notice = parts.feed(event)?;
    Ok(notice)
}
