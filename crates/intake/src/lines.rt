// The lines of what was read.
ghost use Rattle.std.specs.Prelude.{◌≡◌, ◌<◌, ◌==◌, ◌∷◌, map, length, IfOk};
ghost use Rattle.std.specs.List.{position};
ghost use Rattle.intake.specs.Lines.{lines_of};

use std::alloc::{AllocError, Global};

// The place of the first line end.
fn line_end(text: &[u8]) -> Option<usize>
    ensures { result ≡ position (λ byte. byte == 10) text.now }
{
    text.iter().position(|byte| *byte == b'\n')
}

// The first line of a text, without its line end, and the text after it.
fn split_line(text: &[u8]) -> (&[u8], &[u8])
    ensures first { 0 < length text.now → result.0.now ∷ lines_of result.1.now ≡ lines_of text.now }
    ensures shorter { 0 < length text.now → length result.1.now < length text.now }
{
    match line_end(text) {
        Some(end) => (&text[..end], &text[end + 1..]),
        None => (text, &[]),
    }
}

// Every line as a part of the text, without its line end. The text's end ends a line too, but after a last line end
// there is no further line, where the library's `split` has one.
pub fn lines_of<'a>(heap: Global, text: &'a [u8]) -> Result<Vec<&'a [u8]>, AllocError>
    ensures { IfOk result (λ v. map (λ x. x.now) v.items ≡ lines_of text.now) }
{
    let mut lines = Vec::new(heap);
    let mut rest = text;
    while !rest.is_empty() {
        let (line, after) = split_line(rest);
        lines.push(line)?;
        rest = after;
    }
    Ok(lines)
}
