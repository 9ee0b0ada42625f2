//! Runs along a schedule, or along its beginning.
ghost use Rattle.std.specs.Prelude.{IfErr};
ghost use Rattle.session_text.specs.Scripts.{IsRefusedScript};

use crate::actors::Actors;
use crate::paths::{Choice, Path};
use crate::programs::Program;
use crate::walk::{Run, Walk};
use seq_model::Refusal;
use std::alloc::Global;
use text_formats::{EventLine, Script};

/// Runs the programs along the path, and then continues until no actor has a step, with the same actor where it may; what is chosen is
/// added to the path. None where the run was broken off, since all actors with a step sleep.
pub(crate) fn run_along(
    alloc: Global,
    script: &Script,
    programs: &[Program],
    path: &mut Path,
) -> Result<Option<Run>, Refusal>
    ensures refused { IfErr result (IsRefusedScript script.now) }
{
    let has_sleep = path.has_sleep();
    let mut walk = Walk::open(alloc, script, programs)?;
    let mut asleep = Actors::none();
    let mut last = 0;
    for choice in path.choices.as_slice() {
        asleep = asleep_after(&walk, choice, has_sleep);
        walk.take(choice.chosen)?;
        last = choice.chosen;
    }
    for _step in 0..u64::MAX {
        let ready = walk.ready();
        let Some(chosen) = ready.first_without(&asleep, last) else {
            break;
        };
        let choice = Choice {
            chosen,
            ready,
            asleep,
        };
        path.choices.push(choice)?;
        asleep = asleep_after(&walk, &choice, has_sleep);
        walk.take(chosen)?;
        last = chosen;
    }
    if !walk.ready().is_empty() {
        return Ok(None);
    }
    Ok(Some(walk.into_run()?))
}

/// The lines of the run along this schedule.
pub(crate) fn lines_along(
    alloc: Global,
    script: &Script,
    programs: &[Program],
    schedule: &[usize],
) -> Result<Vec<EventLine>, Refusal>
    ensures refused { IfErr result (IsRefusedScript script.now) }
{
    let mut walk = Walk::open(alloc, script, programs)?;
    for actor in schedule {
        walk.take(*actor)?;
    }
    let Run { lines, steps: _ } = walk.into_run()?;
    Ok(lines)
}

/// Who sleeps once the chosen step is taken.
fn asleep_after(walk: &Walk<'_>, choice: &Choice, has_sleep: bool) -> Actors {
    if has_sleep {
        walk.apart_from(choice.chosen, &choice.asleep)
    } else {
        Actors::none()
    }
}
