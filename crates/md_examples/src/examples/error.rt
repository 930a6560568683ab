// Why an example is not run.
use md_value::PathError;
use std::alloc::{AllocError, AllocFailed};
use std::{fmt, io};

/// Why an example is not run.
#[derive(Debug, Drop)]
pub enum ExampleError {
    /// Its file is not well formed at this line.
    Line(u64, &'static str),
    /// Two of its files have one path, or one has the root's, or none can have it.
    Tree,
    /// Its file could not be read, is not UTF-8, or memory ran out.
    Io(io::Error),
}

impl fmt::Display for ExampleError {
    fn fmt<W: fmt::Write>(&self, f: &mut fmt::Formatter<W>) -> fmt::Result {
        match self {
            ExampleError::Line(line, what) => write!(f, "line {line}: {what}"),
            ExampleError::Tree => write!(f, "no tree has these files"),
            ExampleError::Io(error) => write!(f, "{error}"),
        }
    }
}

impl From<PathError> for ExampleError {
    fn from(error: PathError) -> ExampleError {
        match error {
            PathError::Bad => ExampleError::Tree,
            PathError::Memory => ExampleError::from(AllocError),
        }
    }
}

impl From<io::Error> for ExampleError {
    fn from(error: io::Error) -> ExampleError {
        ExampleError::Io(error)
    }
}

impl From<AllocError> for ExampleError {
    fn from(error: AllocError) -> ExampleError {
        ExampleError::Io(io::Error::from(error))
    }
}

impl<T: Drop> From<AllocFailed<T>> for ExampleError {
    fn from(_: AllocFailed<T>) -> ExampleError {
        ExampleError::Io(io::Error::from(AllocError))
    }
}
