//! Reads a script.
ghost use Rattle.std.specs.Prelude.{◌≡◌, IfOk, IfErr, IfSome, OnOk, Some, MatchResult};
ghost use Rattle.seq_model.specs.declared.refusal.Refusal.TheVariants.{Memory as OutOfMemory};
ghost use Rattle.text_formats.specs.declared.script.Script.{Script};
ghost use Rattle.text_formats.specs.declared.script_line.ScriptLine.{ScriptLine};
ghost use Rattle.text_formats.specs.declared.script_parser.Part.{Part};
ghost use Rattle.text_formats.specs.Scripts.{IsNext, IsScriptText, IsUnreadable, nothing, part_behind, with_line};

use crate::cut::{first_line, tokens_of};
use crate::script::Script;
use crate::script_line::{ScriptLine, read_line};
use seq_model::{Items, Memory, Refusal};
use std::alloc::Global;

/// The parts of a script, in their order.
#[derive(Clone, Copy)]
pub enum Part {
    Words,
    Clock,
    Collections,
    Events,
}

/// Reads a step script. `BadText` names the first line outside the grammar, counted from 1.
pub fn parse_steps(alloc: Global, text: &[u8]) -> Result<Script, Refusal>
    ensures script { IfOk result (IsScriptText text.now) }
    ensures refused { IfErr result (IsUnreadable text.now) }
    ensures only { (script : Script) → IsScriptText text.now script
        → MatchResult result (λ read. read ≡ script) (λ refusal. refusal ≡ OutOfMemory) }
{
    let mut script = Script::new(alloc);
    let mut part = Part::Words;
    let mut rest = text;
    let mut number = 1;
    while let Some((line, behind)) = first_line(rest) {
        let Some((line, next)) = read_next(alloc, part, line)? else {
            return Err(Refusal::BadText { line: number });
        };
        script.add(line)?;
        part = next;
        rest = behind;
        number += 1;
    }
    if !rest.is_empty() {
        return Err(Refusal::BadText { line: number });
    }
    Ok(script)
}

// The line that these bytes are, where it may stand here, and the part after it.
fn read_next(alloc: Global, at: Part, bytes: &[u8]) -> Result<Option<(ScriptLine, Part)>, Memory>
    ensures found { IfOk result (λ read. IfSome read (λ r. IsNext at bytes.now r.0 r.1)) }
    ensures only { IfOk result (λ read. (line : ScriptLine) (behind : Part) → IsNext at bytes.now line behind
        → read ≡ Some (line, behind)) }
{
    let Ok(line) = std::str::from_utf8(bytes) else {
        return Ok(None);
    };
    let tokens = tokens_of(alloc, line)?;
    let Some(line) = read_line(alloc, tokens.as_slice())? else {
        return Ok(None);
    };
    match part_behind(at, &line) {
        Some(behind) => Ok(Some((line, behind))),
        None => Ok(None),
    }
}

fn part_behind(at: Part, line: &ScriptLine) -> Option<Part>
    ensures { result ≡ part_behind at line.now }
{
    match (at, line) {
        (Part::Words, ScriptLine::Words(_)) => Some(Part::Clock),
        (Part::Words | Part::Clock, ScriptLine::Clock(_)) => Some(Part::Collections),
        (Part::Words | Part::Clock | Part::Collections, ScriptLine::Holds(_)) => {
            Some(Part::Collections)
        }
        (_, ScriptLine::Event(_)) => Some(Part::Events),
        _ => None,
    }
}

impl Script {
    fn new(alloc: Global) -> Script
        ensures { result ≡ nothing }
    {
        Script {
            words: Items::new(alloc),
            clock: 0,
            collections: Items::new(alloc),
            lines: Items::new(alloc),
        }
    }

    fn add(&mut self, line: ScriptLine) -> Result<(), Memory>
        ensures { OnOk result (self.new ≡ with_line self.old line) }
    {
        match line {
            ScriptLine::Words(values) => self.words = values,
            ScriptLine::Clock(clock) => self.clock = clock,
            ScriptLine::Holds(collection) => self.collections.push(collection)?,
            ScriptLine::Event(event) => self.lines.push(event)?,
        }
        Ok(())
    }
}
