//! What holds of askings in turn, whatever the tree answers.
ghost use Rattle.std.specs.Prelude.{[], ◌∷◌, ℕ, List, Option};
ghost use Rattle.md_value.specs.Values.{PathBytes};
ghost use Rattle.md_source.specs.Tree.{Content};
ghost use Rattle.md_files.specs.FileAnswers.{FileAnswer, IsAsked, AreAsked, IsCounted, failures};
ghost use Rattle.md_files.specs.Folders.{PathResult, AreFound, all_failures};

/// The asking of a file by its path failed only where the count of failures rose, which stands where it did not.
pub fn an_asking_is_counted()
    ensures { (known : Option Content) (before now : ℕ) (path : PathBytes) (answer : FileAnswer)
        → IsAsked known before now path answer → IsCounted before now (failures (answer ∷ [])) }
{}

/// Of several, no more failed than the count of failures rose by, unless it stands at its type's end; and it stands where
/// none failed.
pub fn askings_are_counted()
    ensures { (known : Option Content) (before now : ℕ) (paths : List PathBytes) (answers : List FileAnswer)
        → AreAsked known before now paths answers → IsCounted before now (failures answers) }
{}

/// So it is with the askings of paths that stand for files or folders.
pub fn askings_of_folders_are_counted()
    ensures { (known : Option Content) (before now : ℕ) (paths : List PathBytes) (found : List PathResult)
        → AreFound known before now paths found → IsCounted before now (all_failures found) }
{}
