// What is shown of a text.
ghost use Rattle.std.specs.Prelude.{◌≡◌, IfOk};
ghost use Rattle.props_text.specs.Pairs.{props_of};
ghost use Rattle.props_show.specs.Shown.{escape_line, shown, counted};

use props_text::{PropsFault, read, write};
use samza_model::NoMemory;
use std::alloc::Global;

/// The line of a malformed escape.
fn escape_line(alloc: Global, number: u64) -> Result<Vec<u8>, NoMemory>
    ensures { IfOk result (λ line. line.items ≡ escape_line number) }
{
    let mut line = Vec::new(alloc);
    line.extend_from_slice(b"line ")?;
    line.extend_from_slice(number.to_string(alloc)?.as_bytes())?;
    line.extend_from_slice(b": BadEscape")?;
    line.push(b'\n')?;
    Ok(line)
}

/// The written form of a text's pairs, or the line of its first malformed escape.
pub fn show_text(alloc: Global, text: &[u8]) -> Result<Vec<u8>, NoMemory>
    ensures { IfOk result (λ out. out.items ≡ shown (props_of text.now)) }
{
    match read(alloc, text) {
        Ok(pairs) => write(alloc, &pairs),
        Err(PropsFault::BadEscape { line }) => escape_line(alloc, line),
        Err(PropsFault::NoMemory) => Err(NoMemory),
    }
}

/// The number of a text's pairs, or the line of its first malformed escape.
pub fn count_text(alloc: Global, text: &[u8]) -> Result<Vec<u8>, NoMemory>
    ensures { IfOk result (λ out. out.items ≡ counted (props_of text.now)) }
{
    match read(alloc, text) {
        Ok(pairs) => {
            let mut out = Vec::new(alloc);
            out.extend_from_slice(pairs.len().to_string(alloc)?.as_bytes())?;
            out.push(b'\n')?;
            Ok(out)
        }
        Err(PropsFault::BadEscape { line }) => escape_line(alloc, line),
        Err(PropsFault::NoMemory) => Err(NoMemory),
    }
}
