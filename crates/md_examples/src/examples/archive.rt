// The form of an example's file: a header, and sections below it, as in a `txtar` archive of Go.
use crate::examples::error::ExampleError;
use md_rows::unescape;
use std::alloc::{AllocError, Global};

/// A line of the header.
#[derive(Debug, Drop)]
pub struct HeaderLine {
    pub number: u64,
    pub text: String,
}

impl HeaderLine {
    /// That the line is not well formed.
    pub fn error(&self, what: &'static str) -> ExampleError {
        ExampleError::Line(self.number, what)
    }

    /// The first word of a value, and what follows it.
    pub fn two_words<'a>(&self, value: &'a str) -> Result<(&'a str, &'a str), ExampleError> {
        value.split_once(' ').ok_or(self.error("a word is missing"))
    }
}

/// A section: its heading, `-- KIND --`, `-- KIND NAME --` or one of these with ` escaped` at its end, and what stands below.
#[derive(Debug, Drop)]
pub struct Section {
    /// The number of its heading's line.
    pub number: u64,
    pub kind: String,
    name: String,
    content: String,
    escaped: bool,
}

/// An example's file in parts.
#[derive(Debug, Drop)]
pub struct Archive {
    pub header: Vec<HeaderLine>,
    pub sections: Vec<Section>,
}

impl Archive {
    pub fn read(alloc: Global, text: &str) -> Result<Archive, AllocError> {
        let mut archive = Archive {
            header: Vec::new(alloc),
            sections: Vec::new(alloc),
        };
        let mut number = 0u64;
        for line in text.split_inclusive('\n') {
            number = number.saturating_add(1);
            archive.push(alloc, number, line)?;
        }
        Ok(archive)
    }

    // Adds a line, with its line feed.
    fn push(&mut self, alloc: Global, number: u64, line: &str) -> Result<(), AllocError> {
        if let Some(heading) = heading_of(line) {
            let section = Section::new(alloc, number, heading)?;
            return self.sections.push(section).map_err(AllocError::from);
        }
        if let Some(section) = self.sections.last_mut() {
            return section.content.push_str(line);
        }
        let text = String::from_str(alloc, line.trim())?;
        let line = HeaderLine { number, text };
        self.header.push(line).map_err(AllocError::from)
    }
}

fn without_line_feed(line: &str) -> &str {
    line.strip_suffix('\n').unwrap_or(line)
}

fn heading_of(line: &str) -> Option<&str> {
    without_line_feed(line)
        .strip_prefix("-- ")?
        .strip_suffix(" --")
}

impl Section {
    fn new(alloc: Global, number: u64, heading: &str) -> Result<Section, AllocError> {
        let title = heading.strip_suffix(" escaped").unwrap_or(heading);
        let (kind, name) = title.split_once(' ').unwrap_or((title, ""));
        Ok(Section {
            number,
            kind: String::from_str(alloc, kind)?,
            name: String::from_str(alloc, name)?,
            content: String::new(alloc),
            escaped: title.len() < heading.len(),
        })
    }

    /// That the section is not well formed.
    pub fn error(&self, what: &'static str) -> ExampleError {
        ExampleError::Line(self.number, what)
    }

    /// Whether a name follows its kind.
    pub fn has_name(&self) -> bool {
        !self.name.is_empty()
    }

    /// The content.
    pub fn bytes(&self, alloc: Global) -> Result<Vec<u8>, ExampleError> {
        self.read(alloc, self.content.as_str())
    }

    /// The name in the heading.
    pub fn name(&self, alloc: Global) -> Result<String, ExampleError> {
        self.read_text(alloc, self.name.as_str())
    }

    /// The lines of the content.
    pub fn lines(&self, alloc: Global) -> Result<Vec<String>, ExampleError> {
        let mut lines = Vec::new(alloc);
        for line in self.content.split_inclusive('\n') {
            lines.push(self.read_text(alloc, without_line_feed(line))?)?;
        }
        Ok(lines)
    }

    // What a text of the section stands for.
    fn read(&self, alloc: Global, text: &str) -> Result<Vec<u8>, ExampleError> {
        if !self.escaped {
            return Ok(Vec::from_slice(alloc, text.as_bytes())?);
        }
        match unescape(alloc, text.as_bytes())? {
            Some(bytes) => Ok(bytes),
            None => Err(self.error("an escape is not well formed")),
        }
    }

    fn read_text(&self, alloc: Global, text: &str) -> Result<String, ExampleError> {
        let bytes = self.read(alloc, text)?;
        match String::from_utf8(bytes) {
            Ok(text) => Ok(text),
            Err(_) => Err(self.error("not UTF-8")),
        }
    }
}
