//! Cuts a text into lines, and a line into tokens.
ghost use Rattle.std.specs.Prelude.{◌≡◌, ◌<◌, ◌∷◌, [], IfOk, IfSome, IfNone, length};
ghost use Rattle.text_formats.specs.Tokens.{texts};
ghost use Rattle.text_formats.specs.Cuts.{pieces, tokens};

use std::alloc::{AllocError, Global};

/// The first line, and what stands after its line feed.
pub fn first_line(text: &[u8]) -> Option<(&[u8], &[u8])>
    ensures some { IfSome result (λ cut. pieces text.now ≡ cut.0.now ∷ pieces cut.1.now) }
    ensures shorter { IfSome result (λ cut. length cut.1.now < length text.now) }
    ensures none { IfNone result (pieces text.now ≡ text.now ∷ []) }
{
    let end = text.iter().position(|byte| *byte == b'\n')?;
    let (line, behind) = text.split_at(end);
    Some((line, &behind[1..]))
}

/// The tokens of a line.
pub fn tokens_of(alloc: Global, line: &str) -> Result<Vec<&str>, AllocError>
    ensures { IfOk result (λ read. texts read.items ≡ tokens line.now) }
{
    line.split(' ').collect(alloc)
}
