//! Reads the files of a case. Start with [`case_of`].

use crate::disk::Folder;
use crate::rows::malformed;
use std::alloc::Global;
use std::io;
use std::io::ErrorKind;

/// The texts of a case's files.
#[derive(Drop)]
pub struct Case {
    pub words: String,
    pub script: Option<String>,
    pub expected: String,
}

/// Reads the file of case `name` with the extension `ending`.
fn text_of(folder: Folder<'_>, name: &str, ending: &str) -> io::Result<String> {
    let file = format!(in folder.rt.alloc(); "{name}.{ending}")?;
    folder.text(file.as_str())
}

/// Reads the script of a case, if it has one.
fn script_of(folder: Folder<'_>, name: &str) -> io::Result<Option<String>> {
    match text_of(folder, name, "script") {
        Ok(script) => Ok(Some(script)),
        Err(error) if error.kind() == ErrorKind::NotFound => Ok(None),
        Err(error) => Err(error),
    }
}

/// Reads the files of a case.
pub fn case_of(folder: Folder<'_>, name: &str) -> io::Result<Case> {
    Ok(Case {
        words: text_of(folder, name, "words")?,
        script: script_of(folder, name)?,
        expected: text_of(folder, name, "expected")?,
    })
}

/// Returns the words of a command line, the program's name first. Skips the remarks before them.
pub fn words_of(alloc: Global, text: &str) -> io::Result<Vec<String>> {
    let mut words = Vec::new(alloc);
    words.push(String::from_str(alloc, "warren")?)?;
    for word in text.lines().skip_while(|line| line.starts_with('#')) {
        words.push(String::from_str(alloc, word)?)?;
    }
    Ok(words)
}

/// Appends the repetition `N TEXT`.
fn put_times(out: &mut String, repetition: &str) -> io::Result<()> {
    let (count, text) = match repetition.split_once(' ') {
        Some((count, text)) => (count.parse::<u32>(), text),
        None => return Err(malformed()),
    };
    let count = match count {
        Ok(count) => count,
        Err(_) => return Err(malformed()),
    };
    for _ in 0..count {
        out.push_str(text)?;
    }
    Ok(())
}

/// Returns a script with its repetitions expanded: `{N TEXT}` is the text N times.
pub fn written_out(alloc: Global, text: &str) -> io::Result<String> {
    let mut out = String::new(alloc);
    for (place, part) in text.split('{').enumerate() {
        match part.split_once('}') {
            Some((repetition, after)) if place > 0 => {
                put_times(&mut out, repetition)?;
                out.push_str(after)?;
            }
            None if place == 0 => out.push_str(part)?,
            _ => return Err(malformed()),
        }
    }
    Ok(out)
}
