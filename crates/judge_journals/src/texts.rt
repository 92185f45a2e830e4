//! Texts of one journal, from the lines of its version, its birth and its entries.
use std::alloc::Global;
use up_num::Memory;

/// The text that has these lines.
pub(crate) fn text_of(alloc: Global, lines: &[String]) -> Result<Vec<u8>, Memory> {
    let mut text = Vec::new(alloc);
    for line in lines {
        put_line(&mut text, line.as_bytes())?;
    }
    put_end(alloc, &mut text, lines.len())?;
    Ok(text)
}

/// The text that has another line in the place of one.
pub(crate) fn text_with(
    alloc: Global,
    lines: &[String],
    place: usize,
    other: &[u8],
) -> Result<Vec<u8>, Memory> {
    let mut text = Vec::new(alloc);
    for (number, line) in lines.iter().enumerate() {
        if number == place {
            put_line(&mut text, other)?;
        } else {
            put_line(&mut text, line.as_bytes())?;
        }
    }
    put_end(alloc, &mut text, lines.len())?;
    Ok(text)
}

fn put_line(text: &mut Vec<u8>, line: &[u8]) -> Result<(), Memory> {
    text.extend_from_slice(line)?;
    text.push(b'\n')?;
    Ok(())
}

/// The end of a journal with so many lines before, of which two aren't entries, and of the text.
fn put_end(alloc: Global, text: &mut Vec<u8>, lines: usize) -> Result<(), Memory> {
    let entries = lines.saturating_sub(2);
    let end = format!(in alloc; "end {entries}\ndone\n")?;
    text.extend_from_slice(end.as_bytes())?;
    Ok(())
}
