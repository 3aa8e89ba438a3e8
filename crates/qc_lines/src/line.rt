//! The lines of a log.

ghost use Rattle.std.specs.Prelude.{◌≡◌, ◌<◌, ◌∷◌, ◌==◌, length, option_map, position};
ghost use Rattle.qc_lines.specs.Lines.{ended, lines_of};

/// The index of the first such byte.
pub(crate) fn index_of(text: &[u8], byte: u8) -> Option<usize>
    ensures { result ≡ position (λ b. b == byte) text.now }
{
    text.iter().position(|b| *b == byte)
}

/// The first line of a text that isn't empty, with the line feed that ends it if there is one, and what
/// stands behind it.
pub fn next_line(text: &[u8]) -> (&[u8], &[u8])
    requires { 0 < length text.now }
    ensures lines { lines_of text.now ≡ result.0.now ∷ lines_of result.1.now }
    ensures shorter { length result.1.now < length text.now }
{
    match index_of(text, b'\n') {
        Some(at) => text.split_at(at + 1),
        None => (text, &[]),
    }
}

/// What a line holds ahead of the line feed that ends it; `None` where no line feed does.
pub fn line_text(line: &[u8]) -> Option<&[u8]>
    ensures { option_map (λ text. text.now) result ≡ ended line.now }
{
    let end = index_of(line, b'\n')?;
    Some(&line[..end])
}
