// Kinds of files.
ghost use Rattle.std.specs.Prelude.{◌≡◌};
ghost use Rattle.imp_kind.specs.Kinds.{ending, has_ending, kind_of, kind_of_name, content_type, kind_words, is_imported};

use md_value::Path;

/// What a file is, by the ending of its name.
#[derive(Clone, Copy, Debug, PartialEq, Eq)]
pub enum FileKind {
    /// Its name ends in `.txt`.
    Plain,
    /// Its name ends in `.json`.
    Json,
    /// Its name ends in `.csv`.
    Csv,
    /// Its name has none of these endings; its content is not read.
    Other,
}

// Whether the name has this ending, with ASCII case ignored.
#[tactic(auto, unfolding(crate::specs::Kinds::has_ending))]
fn has_ending(ending: &[u8], name: &[u8]) -> bool
    ensures { result ≡ has_ending ending.now name.now }
{
    ending.len() <= name.len() && name[name.len() - ending.len()..].eq_ignore_ascii_case(ending)
}

fn kind_of_name(name: &[u8]) -> FileKind
    ensures { result ≡ kind_of_name name.now }
{
    if has_ending(FileKind::Plain.ending().as_bytes(), name) {
        FileKind::Plain
    } else if has_ending(FileKind::Json.ending().as_bytes(), name) {
        FileKind::Json
    } else if has_ending(FileKind::Csv.ending().as_bytes(), name) {
        FileKind::Csv
    } else {
        FileKind::Other
    }
}

/// The kind of the file at a path, by the ending of its name with ASCII case ignored. Takes no memory.
pub fn kind_of(path: &Path) -> FileKind
    ensures { result ≡ kind_of path.now }
{
    kind_of_name(path.name().as_bytes())
}

impl FileKind {
    /// What the names of such files end in, where an ending makes the kind.
    pub fn ending(self) -> &'static str
        ensures { result.now ≡ ending self }
    {
        match self {
            FileKind::Plain => ".txt",
            FileKind::Json => ".json",
            FileKind::Csv => ".csv",
            FileKind::Other => "",
        }
    }

    /// The content type, one of Apple's uniform type identifiers.
    pub fn content_type(self) -> &'static str
        ensures { result.now ≡ content_type self }
    {
        match self {
            FileKind::Plain => "public.plain-text",
            FileKind::Json => "public.json",
            FileKind::Csv => "public.comma-separated-values-text",
            FileKind::Other => "public.data",
        }
    }

    pub(crate) fn words(self) -> &'static str
        ensures { result.now ≡ kind_words self }
    {
        match self {
            FileKind::Plain => "Plain Text Document",
            FileKind::Json => "JSON Document",
            FileKind::Csv => "Comma-Separated Values Document",
            FileKind::Other => "Document",
        }
    }

    pub(crate) fn is_imported(self) -> bool
        ensures { result ≡ is_imported self }
    {
        self != FileKind::Other
    }
}
