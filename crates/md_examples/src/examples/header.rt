// The settings of an example's header.
use crate::examples::archive::HeaderLine;
use crate::examples::error::ExampleError;
use md_value::{HIGH, LOW, Path, PathError};
use std::alloc::{AllocError, Global};

/// 2024-03-15 10:00:00 in UTC, a Friday.
const CLOCK: i64 = 1_710_496_800;

/// A stream that takes what is printed.
#[derive(Clone, Copy, Debug, PartialEq, Eq)]
pub enum Stream {
    Out,
    Err,
}

/// The calls of each object that fail, by their numbers from 0.
#[derive(Debug, Drop)]
pub struct Fails {
    pub tree: Vec<u64>,
    pub script: Vec<u64>,
    pub clock: Vec<u64>,
    pub out: Vec<u64>,
    pub err: Vec<u64>,
    /// The stream whose calls fail in turn, each in a run of its own.
    pub each: Option<Stream>,
}

/// A setting of the file of one path.
#[derive(Debug, Drop)]
pub struct FileSetting<T> {
    /// The number of its line.
    pub line: u64,
    pub path: Path,
    pub value: T,
}

/// What a header says.
#[derive(Debug, Drop)]
pub struct Settings {
    /// The clock's moment, in seconds since 1970 in UTC.
    pub clock: i64,
    pub folders: Vec<Path>,
    /// Moments of change, in seconds since 1970 in UTC.
    pub changed: Vec<FileSetting<i64>>,
    /// Sizes in bytes that the tree tells.
    pub sizes: Vec<FileSetting<u64>>,
    pub fails: Fails,
    /// The bytes that a call takes or gives at most.
    pub out_takes: usize,
    pub err_takes: usize,
    pub script_gives: usize,
}

impl Settings {
    pub fn read(alloc: Global, header: &[HeaderLine]) -> Result<Settings, ExampleError> {
        let mut settings = Settings::new(alloc)?;
        let mut commented = false;
        for line in header {
            if line.text.starts_with('#') {
                commented = true;
            } else if !line.text.is_empty() {
                settings.set(alloc, line)?;
            }
        }
        if !commented {
            return Err(ExampleError::Line(1, "no comment says what it shows"));
        }
        Ok(settings)
    }

    // What no header says.
    fn new(alloc: Global) -> Result<Settings, ExampleError> {
        let folders = vec![in alloc; Path::root(alloc)]?;
        Ok(Settings {
            clock: CLOCK,
            folders,
            changed: Vec::new(alloc),
            sizes: Vec::new(alloc),
            fails: Fails {
                tree: Vec::new(alloc),
                script: Vec::new(alloc),
                clock: Vec::new(alloc),
                out: Vec::new(alloc),
                err: Vec::new(alloc),
                each: None,
            },
            out_takes: 4096,
            err_takes: 4096,
            script_gives: 4096,
        })
    }

    // Sets what a line says.
    fn set(&mut self, alloc: Global, line: &HeaderLine) -> Result<(), ExampleError> {
        let (name, value) = line
            .text
            .split_once(' ')
            .unwrap_or((line.text.as_str(), ""));
        match name {
            "clock" => self.clock = moment_of(line, value)?,
            "folder" => {
                let folder = path_of(alloc, line, value)?;
                push_folders(alloc, folder.as_str(), &mut self.folders)?;
                self.folders.push(folder)?;
            }
            "changed" => {
                let (moment, path) = line.two_words(value)?;
                let moment = moment_of(line, moment)?;
                self.changed
                    .push(setting_of_file(alloc, line, path, moment)?)?;
            }
            "size" => {
                let (size, path) = line.two_words(value)?;
                let size = number_of(line, size)?;
                self.sizes.push(setting_of_file(alloc, line, path, size)?)?;
            }
            "fails" => self.fails.set(line, value)?,
            "takes" | "gives" => self.set_piece(line, name, value)?,
            _ => return Err(line.error("no such setting")),
        }
        Ok(())
    }

    // Sets how many bytes a call of an object takes or gives.
    fn set_piece(
        &mut self,
        line: &HeaderLine,
        name: &str,
        value: &str,
    ) -> Result<(), ExampleError> {
        let (object, piece) = line.two_words(value)?;
        let piece = match piece.parse::<u32>() {
            Ok(piece) if piece > 0 => piece as usize,
            _ => return Err(line.error("not a number from 1")),
        };
        match (name, object) {
            ("takes", "out") => self.out_takes = piece,
            ("takes", "err") => self.err_takes = piece,
            ("gives", "script") => self.script_gives = piece,
            _ => return Err(line.error("no such object")),
        }
        Ok(())
    }
}

impl Fails {
    // Sets which calls of an object fail: `OBJECT N N ..`, or `out each` and `err each`.
    fn set(&mut self, line: &HeaderLine, value: &str) -> Result<(), ExampleError> {
        let (object, calls) = line.two_words(value)?;
        let list = match object {
            "tree" => &mut self.tree,
            "script" => &mut self.script,
            "clock" => &mut self.clock,
            "out" | "err" if calls == "each" => {
                self.each = Some(if object == "out" {
                    Stream::Out
                } else {
                    Stream::Err
                });
                return Ok(());
            }
            "out" => &mut self.out,
            "err" => &mut self.err,
            _ => return Err(line.error("no such object")),
        };
        for call in calls.split(' ') {
            list.push(number_of(line, call)?)?;
        }
        Ok(())
    }
}

/// Adds the folders that a path stands in. Where one is there already, so are those that it stands in.
pub fn push_folders(
    alloc: Global,
    path: &str,
    folders: &mut Vec<Path>,
) -> Result<(), ExampleError> {
    let mut rest = path;
    for _ in 0..path.len() {
        match rest.rsplit_once('/') {
            Some((folder, _)) if !folders.iter().any(|known| known.as_str() == folder) => {
                folders.push(Path::read(alloc, folder)?)?;
                rest = folder;
            }
            _ => break,
        }
    }
    Ok(())
}

fn setting_of_file<T: Drop>(
    alloc: Global,
    line: &HeaderLine,
    path: &str,
    value: T,
) -> Result<FileSetting<T>, ExampleError> {
    Ok(FileSetting {
        line: line.number,
        path: path_of(alloc, line, path)?,
        value,
    })
}

fn path_of(alloc: Global, line: &HeaderLine, text: &str) -> Result<Path, ExampleError> {
    match Path::read(alloc, text) {
        Ok(path) => Ok(path),
        Err(PathError::Bad) => Err(line.error("not a path")),
        Err(PathError::Memory) => Err(ExampleError::from(AllocError)),
    }
}

fn number_of(line: &HeaderLine, text: &str) -> Result<u64, ExampleError> {
    match text.parse() {
        Ok(number) => Ok(number),
        Err(_) => Err(line.error("not a number")),
    }
}

// A moment in seconds since 1970 in UTC.
fn moment_of(line: &HeaderLine, text: &str) -> Result<i64, ExampleError> {
    match text.parse::<i64>() {
        Ok(moment) if LOW <= moment && moment <= HIGH => Ok(moment),
        _ => Err(line.error("not a moment of the years 1 to 9999")),
    }
}
