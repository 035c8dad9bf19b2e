// A table of commands: the program's own name of each, and how it is written. Its name in a script is the first word of
// that, and it takes as many words as are written; one in square brackets may be left out.
use crate::lines::Line;
use std::io;
use text::fault::Fault;
use text::words::word;

// How often a byte stands in a text.
fn tally(text: &[u8], byte: u8) -> usize {
    text.iter().filter(|b| **b == byte).count()
}

// Whether a line has as many words as its command takes.
fn has_words(line: &[u8], written: &[u8]) -> bool {
    match tally(written, b' ').checked_sub(tally(line, b' ')) {
        Some(left_out) => left_out <= tally(written, b'['),
        None => false,
    }
}

// Whether a line is no command and no fault: an empty one, and one that begins with `#`.
fn is_passed_over(line: &[u8]) -> bool {
    matches!(line, [] | [b'#', ..])
}

// The command that a line is; none where it is passed over.
pub fn find<C: Copy>(table: &[(C, &'static str)], line: Line<'_>) -> Result<Option<C>, Fault> {
    if is_passed_over(line.bytes) {
        return Ok(None);
    }
    if line.is_long {
        return Err(Fault::LineTooLong);
    }
    let name = word(line.bytes, 0);
    let Some((command, written)) = table
        .iter()
        .find(|(_, written)| word(written.as_bytes(), 0) == name)
    else {
        return Err(Fault::UnknownCommand);
    };
    if has_words(line.bytes, written.as_bytes()) {
        Ok(Some(*command))
    } else {
        Err(Fault::Usage(*written))
    }
}

// Says how all commands are written, each as a line that begins with `# `.
pub fn say_all<C: Copy>(out: &impl Print, table: &[(C, &'static str)]) -> io::Result<()> {
    for (_, written) in table {
        println!(out; "# {written}")?;
    }
    Ok(())
}
