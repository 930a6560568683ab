// The kinds of files that are made.
ghost use Rattle.std.specs.Prelude.{◌≡◌};
ghost use Rattle.md_gen.specs.Files.{ending, kind};

/// What a file holds.
#[derive(Clone, Copy)]
pub(crate) enum Kind {
    Text,
    Json,
    Csv,
}

impl Kind {
    /// The kind of a number, of which 0 is text and 1 is JSON.
    pub(crate) fn of(number: usize) -> Kind
        ensures { result ≡ kind number }
    {
        match number {
            0 => Kind::Text,
            1 => Kind::Json,
            _ => Kind::Csv,
        }
    }

    /// What the names of such files end in.
    pub(crate) fn ending(self) -> &'static str
        ensures { result.now ≡ ending self }
    {
        match self {
            Kind::Text => ".txt",
            Kind::Json => ".json",
            Kind::Csv => ".csv",
        }
    }
}
