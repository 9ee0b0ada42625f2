//! An exploration, from the text of a script to what is printed.
ghost use Rattle.std.specs.Prelude.{◌≤◌, All, IfErr, IfOk};
ghost use Rattle.interleavings.specs.Explorations.{IsCounted, IsExplored, IsOutcomeOf};
ghost use Rattle.interleavings.specs.Faults.{IsScriptFault, IsTextFault};

use crate::outcomes::Exploration;
use crate::paths::Path;
use crate::print::print_exploration;
use crate::programs::programs_of;
use crate::progress::ExploreProgress;
use crate::running::run_along;
use session_text::RunFault;
use std::alloc::Global;
use text_formats::{Script, parse_steps};

/// Which schedules are run.
#[derive(Clone, Copy)]
pub enum Schedules {
    /// One of those that differ only by the order of steps that are apart.
    Apart,
    /// All.
    All,
}

/// What the script that a text spells can answer: its outcomes, each with its shortest script. At most so many runs are made, and
/// `progress` is called after each.
///
/// `BadText` names the first line that is outside the grammar of scripts, or else the first that is not to be explored: it is no request,
/// one of a ninth actor, or one that has no answer where it stands. `TooLong` where the script's header is beyond a limit, and `Memory`
/// where an allocation failed.
pub fn explore<P: ExploreProgress>(
    alloc: Global,
    text: &[u8],
    most: u64,
    progress: &P,
) -> Result<Vec<u8>, RunFault>
    ensures explored { IfOk result (λ bytes. IsExplored text.now most bytes.items) }
    ensures refused { IfErr result (IsTextFault text.now) }
{
    let script = parse_steps(alloc, text)?;
    let first_line = first_event(text, &script);
    let found = explore_script(alloc, &script, first_line, Schedules::Apart, most, progress)?;
    Ok(print_exploration(alloc, &found)?)
}

/// The number of the line on which the script's first event stands.
fn first_event(text: &[u8], script: &Script) -> u64 {
    let lines = text.iter().filter(|byte| **byte == b'\n').count();
    let header = lines.saturating_sub(script.lines.len()) as u64;
    header.saturating_add(1)
}

/// The outcomes of a script whose first event stands on this line, as `explore` finds them.
pub fn explore_script<P: ExploreProgress>(
    alloc: Global,
    script: &Script,
    first_line: u64,
    schedules: Schedules,
    most: u64,
    progress: &P,
) -> Result<Exploration, RunFault>
    ensures outcomes { IfOk result (λ found. All (IsOutcomeOf script.now) found.outcomes.items) }
    ensures counted { IfOk result IsCounted }
    ensures few { IfOk result (λ found. found.interleavings ≤ most) }
    ensures refused { IfErr result (IsScriptFault script.now) }
{
    let programs = programs_of(alloc, script, first_line)?;
    let mut found = Exploration::new(alloc);
    let mut path = Path::new(alloc, schedules);
    for run in 0..most {
        let made = run_along(alloc, script, programs.as_slice(), &mut path)?;
        found.count(alloc, script, programs.as_slice(), made)?;
        progress.tried(run + 1, most);
        if !path.turn()? {
            found.is_complete = true;
            return Ok(found);
        }
    }
    Ok(found)
}
