//! Machine descriptions of cases: the built-in one with other lines.
use machine_desc::PLAIN;

/// Puts the built-in description with changes, which stand between `;`. Each is `OLD -> NEW`: a
/// whole line, and the lines that stand in its place, between `|`. None where memory runs out or a
/// change has no arrow.
pub fn put_changed(changes: &str, text: &mut Vec<u8>) -> Option<()> {
    for line in PLAIN.lines() {
        put_lines(changed(line, changes)?, text)?;
    }
    Some(())
}

/// A line, or those that stand in its place.
fn changed<'a>(line: &'a str, changes: &'a str) -> Option<&'a str> {
    for change in changes.split_terminator(';') {
        let (old, new) = change.split_once("->")?;
        if old.trim() == line {
            return Some(new);
        }
    }
    Some(line)
}

/// Puts the lines that stand between `|`.
fn put_lines(lines: &str, text: &mut Vec<u8>) -> Option<()> {
    for line in lines.split('|') {
        put_line(line.trim(), text)?;
    }
    Some(())
}

fn put_line(line: &str, text: &mut Vec<u8>) -> Option<()> {
    text.extend_from_slice(line.as_bytes()).ok()?;
    text.push(b'\n').ok()
}

/// Puts an unknown key of so many letters and the built-in description behind it. Each letter is
/// two bytes, which do not print as themselves.
pub fn put_long_key(letters: usize, text: &mut Vec<u8>) -> Option<()> {
    text.push(b'"').ok()?;
    for _ in 0..letters {
        text.extend_from_slice("é".as_bytes()).ok()?;
    }
    put_line("\" = 1", text)?;
    text.extend_from_slice(PLAIN.as_bytes()).ok()
}
