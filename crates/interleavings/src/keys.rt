//! What distinguishes an outcome from others.
use crate::programs::Program;
use seq_model::Memory;
use std::alloc::Global;
use std::fmt::Write;
use text_formats::first_line;

/// What a run prints, with the answers of each actor together. Two runs have one outcome where these are the same.
pub(crate) fn key_of(
    alloc: Global,
    programs: &[Program],
    printed: &[u8],
) -> Result<Vec<u8>, Memory> {
    let mut key = Vec::with_capacity(alloc, printed.len())?;
    for program in programs {
        let mut prefix = String::new(alloc);
        write!(prefix, "{}: ", program.actor)?;
        push_lines(&mut key, printed, prefix.as_bytes())?;
    }
    push_state(&mut key, printed)?;
    Ok(key)
}

fn push_lines(key: &mut Vec<u8>, printed: &[u8], prefix: &[u8]) -> Result<(), Memory> {
    let mut rest = printed;
    while let Some((line, behind)) = first_line(rest) {
        if line.starts_with(prefix) {
            push_line(key, line)?;
        }
        rest = behind;
    }
    Ok(())
}

/// The records, and what words and collections hold: the lines that begin with no number.
fn push_state(key: &mut Vec<u8>, printed: &[u8]) -> Result<(), Memory> {
    let mut rest = printed;
    while let Some((line, behind)) = first_line(rest) {
        if !matches!(line, [b'0'..=b'9', ..]) {
            push_line(key, line)?;
        }
        rest = behind;
    }
    Ok(())
}

fn push_line(key: &mut Vec<u8>, line: &[u8]) -> Result<(), Memory> {
    key.extend_from_slice(line)?;
    key.push(b'\n')?;
    Ok(())
}
