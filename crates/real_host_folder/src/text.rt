// Names as text, as the system takes them, and paths as they are told.
use crate::error::HostError;
use fs_model::Name;
use std::fmt::{self, Display, Formatter, Write};

/// A name as the system takes it.
pub fn name_text(name: &Name) -> Result<&str, HostError> {
    text_of(name.as_slice(), "has a name that is no text")
}

/// Bytes as text, or what is wrong where they are none.
pub fn text_of<'a>(bytes: &'a [u8], wrong: &'static str) -> Result<&'a str, HostError> {
    match str::from_utf8(bytes) {
        Ok(text) => Ok(text),
        Err(_) => Err(HostError::Wrong(wrong)),
    }
}

/// Text for a terminal: what would move its cursor or turn its colours stands as `\xNN`, as does the backslash.
#[derive(Drop)]
pub struct Shown<'a>(pub &'a str);

impl Display for Shown<'_> {
    fn fmt<W: Write>(&self, f: &mut Formatter<W>) -> fmt::Result {
        for c in self.0.chars() {
            if c.is_control() || c == '\\' {
                write!(f, "\\x{:02x}", c as u32)?;
            } else {
                f.write_char(c)?;
            }
        }
        Ok(())
    }
}

/// The path of a row in the folder, and of a child of that where one is named.
#[derive(Drop)]
pub struct ShownPath<'a> {
    pub folder: &'a str,
    pub names: &'a [Name],
    pub child: Option<&'a str>,
}

impl Display for ShownPath<'_> {
    fn fmt<W: Write>(&self, f: &mut Formatter<W>) -> fmt::Result {
        write!(f, "{}", Shown(self.folder.trim_end_matches('/')))?;
        for name in self.names {
            match str::from_utf8(name.as_slice()) {
                Ok(name) => write!(f, "/{}", Shown(name))?,
                Err(_) => f.write_str("/?")?,
            }
        }
        match self.child {
            Some(child) => write!(f, "/{}", Shown(child)),
            None => Ok(()),
        }
    }
}
