//! What a run reads, as a section spells it, and what it writes to.
use std::alloc::{AllocError, Global};
use std::io;
use std::io::{Read, Write};
use text_formats::number;

/// How a file ends.
#[derive(Clone, Copy)]
pub enum End {
    Whole,
    Fails,
    /// What stands where it is read to follows without end.
    Endless,
}

/// The text of a file, and how that ends.
pub fn ending_of(text: &str) -> (&str, End) {
    if let Some(text) = text.strip_suffix("\\fails\n") {
        return (text, End::Fails);
    }
    match text.strip_suffix("\\endless\n") {
        Some(text) => (text, End::Endless),
        None => (text, End::Whole),
    }
}

/// The bytes that a text spells: `\xff` is a byte by its two digits, and a line after `\times 9 ` stands so many times.
pub fn bytes_of(alloc: Global, text: &str) -> Result<Vec<u8>, AllocError> {
    let mut bytes = Vec::new(alloc);
    for line in text.split_inclusive('\n') {
        let (times, line) = times_of(line).unwrap_or((1, line));
        for _time in 0..times {
            push_spelt(&mut bytes, line)?;
        }
    }
    Ok(bytes)
}

fn times_of(line: &str) -> Option<(u64, &str)> {
    let (times, line) = line.strip_prefix("\\times ")?.split_once(' ')?;
    Some((number(times)?, line))
}

fn push_spelt(bytes: &mut Vec<u8>, line: &str) -> Result<(), AllocError> {
    let mut pieces = line.split("\\x");
    bytes.extend_from_slice(pieces.next().unwrap_or("").as_bytes())?;
    for piece in pieces {
        let (digits, rest) = piece.split_at_checked(2).unwrap_or((piece, ""));
        bytes.push(u8::from_str_radix(digits, 16).unwrap_or(0))?;
        bytes.extend_from_slice(rest.as_bytes())?;
    }
    Ok(())
}

/// Adds a text, and drops it.
pub fn push_owned(text: &mut String, added: String) -> Result<(), AllocError> {
    text.push_str(added.as_str())
}

/// A file that is read.
#[derive(Drop)]
pub struct Input<'a> {
    pub rest: &'a [u8],
    pub end: End,
}

impl Read for Input<'_> {
    fn read(&mut self, buffer: &mut [u8]) -> io::Result<usize> {
        if !self.rest.is_empty() {
            return self.rest.read(buffer);
        }
        match self.end {
            End::Whole => Ok(0),
            End::Fails => Err(io::Error::from(io::ErrorKind::Other)),
            End::Endless => Ok(buffer.len()),
        }
    }
}

/// What is written, or is refused.
#[derive(Drop)]
pub struct Output {
    pub bytes: Vec<u8>,
    pub is_full: bool,
}

impl Write for Output {
    fn write(&mut self, bytes: &[u8]) -> io::Result<usize> {
        if self.is_full {
            return Err(io::Error::from(io::ErrorKind::Other));
        }
        self.bytes.write(bytes)
    }

    fn flush(&mut self) -> io::Result<()> {
        Ok(())
    }
}
