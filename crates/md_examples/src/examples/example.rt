// An example: what the program is given, and what is wanted of it.
use crate::examples::archive::{Archive, Section};
use crate::examples::comparing::Printed;
use crate::examples::error::ExampleError;
use crate::examples::files::{File, file_of, finish, push_numbered};
use crate::examples::header::Settings;
use std::alloc::Global;

/// An example.
#[derive(Debug, Drop)]
pub struct Example {
    pub settings: Settings,
    pub words: Vec<String>,
    /// Ascending by path.
    pub files: Vec<File>,
    pub script: Vec<u8>,
    pub wanted: Printed,
}

// The sections of an example that may stand once.
#[derive(Drop)]
struct Parts {
    words: Option<Vec<String>>,
    script: Option<Vec<u8>>,
    out: Option<Vec<u8>>,
    err: Option<Vec<u8>>,
    status: Option<u8>,
}

impl Example {
    /// The example of a file's text.
    pub fn read(alloc: Global, text: &str) -> Result<Example, ExampleError> {
        let archive = Archive::read(alloc, text)?;
        let mut settings = Settings::read(alloc, &archive.header)?;
        let mut parts = Parts::new();
        let mut files = Vec::new(alloc);
        for section in &archive.sections {
            match section.kind.as_str() {
                "file" => files.push(file_of(alloc, section, &settings)?)?,
                "files" => push_numbered(alloc, section, &settings, &mut files)?,
                _ => parts.set(alloc, section)?,
            }
        }
        finish(alloc, &mut files, &mut settings)?;
        parts.into_example(alloc, settings, files)
    }
}

impl Parts {
    fn new() -> Parts {
        Parts {
            words: None,
            script: None,
            out: None,
            err: None,
            status: None,
        }
    }

    // Takes what a section says.
    fn set(&mut self, alloc: Global, section: &Section) -> Result<(), ExampleError> {
        if section.has_name() {
            return Err(section.error("no such section, or a name where none stands"));
        }
        match section.kind.as_str() {
            "words" => set_once(&mut self.words, section, section.lines(alloc)?),
            "script" => set_once(&mut self.script, section, section.bytes(alloc)?),
            "out" => set_once(&mut self.out, section, section.bytes(alloc)?),
            "err" => set_once(&mut self.err, section, section.bytes(alloc)?),
            "status" => set_once(&mut self.status, section, status_of(alloc, section)?),
            _ => Err(section.error("no such section")),
        }
    }

    fn into_example(
        self,
        alloc: Global,
        settings: Settings,
        files: Vec<File>,
    ) -> Result<Example, ExampleError> {
        let Parts {
            words,
            script,
            out,
            err,
            status,
        } = self;
        let Some(words) = words else {
            return Err(ExampleError::Line(1, "the section `words` is missing"));
        };
        Ok(Example {
            settings,
            words,
            files,
            script: script.unwrap_or(Vec::new(alloc)),
            wanted: Printed {
                status: status.unwrap_or(0),
                out: out.unwrap_or(Vec::new(alloc)),
                err: err.unwrap_or(Vec::new(alloc)),
            },
        })
    }
}

fn set_once<T: Drop>(
    place: &mut Option<T>,
    section: &Section,
    value: T,
) -> Result<(), ExampleError> {
    if place.is_some() {
        return Err(section.error("the section stands twice"));
    }
    *place = Some(value);
    Ok(())
}

fn status_of(alloc: Global, section: &Section) -> Result<u8, ExampleError> {
    let bytes = section.bytes(alloc)?;
    match std::str::from_utf8(&bytes) {
        Ok(text) => match text.trim().parse() {
            Ok(status) => Ok(status),
            Err(_) => Err(section.error("not a status")),
        },
        Err(_) => Err(section.error("not a status")),
    }
}
