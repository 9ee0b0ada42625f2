//! The sections, and what is made of each.
use crate::explorations::{print_beside_all, print_replayed};
use crate::files::{Input, Output, bytes_of, ending_of, push_owned};
use crate::laid_out::print_laid_out;
use crate::reading::print_script;
use crate::reservations::{answer_section, opening_of};
use crate::times::{print_missed, print_paces};
use crate::worlds::print_worlds;
use command_line::{DONE, MEMORY, file_of, run_tool};
use seq_model::{Memory, Refusal};
use session_text::RunFault;
use std::alloc::{AllocError, Global};
use std::fmt::Write;
use std::sync::Wait;
use std::thread::Threads;
use std::time::Clock;

/// What a run writes to has room for this many bytes, so that a write never runs out of memory.
const ROOM: usize = 65_536;

/// How often a line is printed that comes so often, at most.
const TIMES: u64 = 99;

/// How many lines of an end are shown.
const LAST: usize = 3;

/// The sections, each by its name and what came of it. What is made of one stands at the end of its name, or in its first line.
///
/// - A text whose first line is `rows`, `64 stripes` or `in order, 64 stripes` is of reservations ([`crate::reservations`]).
/// - After ` | ` stand the words by which the program is run over the text, and `step -` where nothing stands there. With ` > full` it
///   writes to what takes nothing; with ` > end` only the last three lines are shown; with ` > races`, where workers race for the same
///   items, how many sessions were missed isn't shown. What it printed is shown, a line that came more than 99 times with its number; then
///   its fault, its status where that is not 0, and of what a run took the first word and the last line, or the names of its values. In
///   the text `\xff` is a byte, and a line after `\times 9 ` stands so many times; a text that ends with `\fails` can't be read further,
///   and one with `\endless` has no end.
/// - ` = replayed`: the script is explored, and of each outcome the script beside it is run.
/// - ` = schedules`: the script is explored, and once more under all schedules.
/// - ` = script`: the text is a script, of which each line is printed as it was read.
/// - ` = world`: the text is a script, whose events are fed to a world, as `worlds` reads it. What came of them is printed.
/// - ` = trace`: the text lays out a trace, line by line, as `laid_out` reads it. What is printed of it is shown.
/// - ` = files`: each line has words; the file that they name is printed.
/// - ` = times`: what is printed of the times of a run that missed sessions.
/// - ` = paces`: what is printed of how far runs have come.
pub fn run_all<H: Threads + Wait + Clock + Sync>(
    rt: &H,
    alloc: Global,
    sections: &str,
) -> Result<String, Memory> {
    let mut text = String::new(alloc);
    let mut count = 0u64;
    for section in sections.split("----\n") {
        if let Some((name, file)) = section.split_once('\n') {
            writeln!(text, "# {name}")?;
            let run = run_section(rt, &mut text, name, file);
            tell(&mut text, run)?;
            count = count.saturating_add(1);
        }
    }
    writeln!(text, "sections {count}")?;
    Ok(text)
}

fn run_section<H: Threads + Wait + Clock + Sync>(
    rt: &H,
    text: &mut String,
    name: &str,
    file: &str,
) -> Result<(), RunFault> {
    let (_, kind) = name.split_once(" = ").unwrap_or((name, ""));
    match kind {
        "replayed" => print_replayed(text, file),
        "schedules" => print_beside_all(text, file),
        "script" | "world" | "trace" => Ok(print_by_script(text, kind, file)?),
        _ => Ok(run_other(rt, text, kind, name, file)?),
    }
}

fn print_by_script(text: &mut String, kind: &str, file: &str) -> Result<(), Refusal> {
    match kind {
        "script" => print_script(text, file),
        "world" => print_worlds(text, file),
        _ => print_laid_out(text, file),
    }
}

fn run_other<H: Threads + Wait + Clock + Sync>(
    rt: &H,
    text: &mut String,
    kind: &str,
    name: &str,
    file: &str,
) -> Result<(), Memory> {
    match kind {
        "files" => print_files(text, file),
        "times" => print_missed(text),
        "paces" => print_paces(text),
        _ => match opening_of(file) {
            Some((opening, rows)) => answer_section(text, opening, rows),
            None => run_words(rt, text, name, file),
        },
    }
}

// A refusal and a fault are printed, but for that of memory.
fn tell(text: &mut String, run: Result<(), RunFault>) -> Result<(), Memory> {
    let told = match run {
        Ok(()) => Ok(()),
        Err(RunFault::Refused(Refusal::Memory)) => return Err(Memory),
        Err(RunFault::Refused(refusal)) => writeln!(text, "refused: {refusal}"),
        Err(fault) => writeln!(text, "fault: {fault}"),
    };
    Ok(told?)
}

fn words_of(alloc: Global, asked: &str) -> Result<Vec<String>, AllocError> {
    let mut words = Vec::new(alloc);
    for word in asked.split_whitespace() {
        words.push(String::from_str(alloc, word)?)?;
    }
    Ok(words)
}

fn print_files(text: &mut String, lines: &str) -> Result<(), Memory> {
    for line in lines.lines() {
        write!(text, "{line}: ")?;
        print_file(text, line)?;
        text.push('\n')?;
    }
    Ok(())
}

// The words' fault is printed by what runs them.
fn print_file(text: &mut String, asked: &str) -> Result<(), Memory> {
    let alloc = *text.allocator();
    let words = words_of(alloc, asked)?;
    let printed = match file_of(alloc, words.as_slice())? {
        Some(file) => push_owned(text, file),
        None => text.push_str("no file"),
    };
    Ok(printed?)
}

fn run_words<H: Threads + Wait + Clock + Sync>(
    rt: &H,
    text: &mut String,
    name: &str,
    file: &str,
) -> Result<(), Memory> {
    let alloc = *text.allocator();
    let (_, asked) = name.split_once(" |").unwrap_or((name, "step -"));
    let (asked, shown) = asked.split_once(" > ").unwrap_or((asked, ""));
    let (file, end) = ending_of(file);
    let words = words_of(alloc, asked)?;
    let bytes = bytes_of(alloc, file)?;
    let mut out = output(alloc, shown == "full")?;
    let mut input = Input {
        rest: bytes.as_slice(),
        end,
    };
    Ok(run_over(rt, text, words.as_slice(), &mut input, &mut out, shown)?)
}

fn output(alloc: Global, is_full: bool) -> Result<Output, AllocError> {
    let bytes = Vec::with_capacity(alloc, ROOM)?;
    Ok(Output { bytes, is_full })
}

fn run_over<H: Threads + Wait + Clock + Sync>(
    rt: &H,
    text: &mut String,
    words: &[String],
    input: &mut Input<'_>,
    out: &mut Output,
    shown: &str,
) -> Result<(), AllocError> {
    let alloc = *text.allocator();
    let mut err = output(alloc, false)?;
    let status = run_tool(rt, alloc, words, input, out, &mut err);
    if status == MEMORY && out.bytes.is_empty() {
        return Err(AllocError);
    }
    let lines = text_of(out.bytes.as_slice());
    let printed = match shown {
        "races" => print_raced(text, lines),
        "end" => print_last(text, lines),
        _ => print_lines(text, lines),
    };
    printed?;
    print_end(text, status, err.bytes.as_slice())
}

fn print_last(text: &mut String, lines: &str) -> Result<(), AllocError> {
    let mut count = 0usize;
    for _line in lines.split_inclusive('\n') {
        count = count.saturating_add(1);
    }
    let mut place = 0usize;
    for line in lines.split_inclusive('\n') {
        if place.saturating_add(LAST) >= count {
            text.push_str(line)?;
        }
        place = place.saturating_add(1);
    }
    Ok(())
}

fn print_raced(text: &mut String, lines: &str) -> Result<(), AllocError> {
    for line in lines.split_inclusive('\n') {
        text.push_str(if line.starts_with("missed ") {
            "missed ..\n"
        } else {
            line
        })?;
    }
    Ok(())
}

fn print_end(text: &mut String, status: u8, err: &[u8]) -> Result<(), AllocError> {
    if status == DONE {
        return print_times(text, text_of(err));
    }
    text.push_str("refused: ")?;
    print_lines(text, text_of(err))?;
    writeln!(text, "status {status}")
}

fn text_of(bytes: &[u8]) -> &str {
    std::str::from_utf8(bytes).unwrap_or("no text\n")
}

fn print_lines(text: &mut String, lines: &str) -> Result<(), AllocError> {
    let mut last = "";
    let mut times = 0u64;
    for line in lines.split_inclusive('\n') {
        if line != last {
            print_line(text, last, times)?;
            last = line;
            times = 0;
        }
        times = times.saturating_add(1);
    }
    print_line(text, last, times)
}

fn print_line(text: &mut String, line: &str, times: u64) -> Result<(), AllocError> {
    if times > TIMES {
        return write!(text, "{times} times {line}");
    }
    for _time in 0..times {
        text.push_str(line)?;
    }
    Ok(())
}

// What a run took is never the same: its first word and its last line are, or the names of its values.
fn print_times(text: &mut String, times: &str) -> Result<(), AllocError> {
    match times.split_once(' ') {
        Some((first, rest)) => writeln!(text, "{first} .. {}", rest.lines().last().unwrap_or("")),
        None => text.push_str(times.split_inclusive('\n').next().unwrap_or("")),
    }
}
