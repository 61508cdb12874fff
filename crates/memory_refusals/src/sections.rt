//! Splits the input into sections. Start with [`sections_of`].
//!
//! A line `==== NAME` begins a section, whose text goes up to the next such line. What precedes the first is ignored.

use std::alloc::Global;
use std::io;
use std::io::ErrorKind;

/// The mark before the name of a section.
const MARK: &str = "==== ";

/// A text with its name.
#[derive(Clone, Copy, Drop)]
pub struct Section<'a> {
    pub name: &'a str,
    pub text: &'a str,
}

/// Returns the sections of `text`, in their order.
pub fn sections_of(alloc: Global, text: &str) -> io::Result<Vec<Section<'_>>> {
    let mut sections = Vec::new(alloc);
    for part in text.split(MARK).skip(1) {
        match part.split_once('\n') {
            Some((name, text)) => sections.push(Section { name, text })?,
            None => sections.push(Section {
                name: part,
                text: "",
            })?,
        }
    }
    Ok(sections)
}

/// Returns the text of the section called `name`.
pub fn text_of<'a>(sections: &[Section<'a>], name: &str) -> io::Result<&'a str> {
    match sections.iter().find(|section| section.name == name) {
        Some(section) => Ok(section.text),
        None => Err(io::Error::from(ErrorKind::NotFound)),
    }
}
