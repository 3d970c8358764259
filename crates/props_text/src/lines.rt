// Natural lines and white space.
ghost use Rattle.std.specs.Prelude.{◌≡◌, ◌≤◌, ◌+◌, [], ◌∷◌, true, length, MatchOption, IfSome};
ghost use Rattle.std.specs.List.{prefix_len};
ghost use Rattle.props_text.specs.Lines.{is_white, skip_white, is_line_end, starts_with_line_end, line_end_len, natural_lines};

/// Whether a byte is a space, a tab or a form feed.
pub fn is_white(unit: u8) -> bool
    ensures { result ≡ is_white unit }
{
    unit == b' ' || unit == b'\t' || unit == 12
}

/// Whether a byte is a line feed or a carriage return.
fn is_line_end(unit: u8) -> bool
    ensures { result ≡ is_line_end unit }
{
    unit == b'\n' || unit == b'\r'
}

/// How long the line end is with which a text begins.
fn line_end_len(text: &[u8]) -> usize
    ensures { result ≡ line_end_len text.now }
{
    match text {
        [] => 0,
        [b'\r', b'\n', ..] => 2,
        _ => 1,
    }
}

/// What stands behind the line end with which a text begins.
fn behind_line_end(text: &[u8]) -> &[u8]
    requires { starts_with_line_end text.now ≡ true }
    ensures lines { natural_lines text.now ≡ [] ∷ natural_lines result.now }
    ensures shorter { length result.now + 1 ≤ length text.now }
{
    let len = line_end_len(text);
    text.split_at(len).1
}

/// The first natural line of a text, and the text behind its end, where it has one.
pub fn split_line(text: &[u8]) -> (&[u8], Option<&[u8]>)
    ensures lines { MatchOption result.1 (natural_lines text.now ≡ result.0.now ∷ [])
        (λ rest. natural_lines text.now ≡ result.0.now ∷ natural_lines rest.now) }
    ensures shorter { IfSome result.1 (λ rest. length result.0.now + length rest.now + 1
        ≤ length text.now) }
{
    for (i, unit) in text.iter().enumerate() {
        if is_line_end(*unit) {
            return (&text[..i], Some(behind_line_end(&text[i..])));
        }
    }
    (text, None)
}

fn white_len(line: &[u8]) -> usize
    ensures { result ≡ prefix_len is_white line.now }
{
    line.iter().take_while(|unit| is_white(**unit)).count()
}

/// A line without its leading white space.
pub fn skip_white(line: &[u8]) -> &[u8]
    ensures { result.now ≡ skip_white line.now }
{
    let white = white_len(line);
    line.split_at(white).1
}
