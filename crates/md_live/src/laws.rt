//! What holds of every script.
ghost use Rattle.std.specs.Prelude.{◌≡◌, ◌++◌, ℕ, ℤ, List, Ok, Option};
ghost use Rattle.md_source.specs.Tree.{Content};
ghost use Rattle.md_machine.specs.declared.Event.{Event};
ghost use Rattle.md_files.specs.FileAnswers.{IsCounted};
ghost use Rattle.md_files.specs.declared.asking.ImportResult.{ImportResult};
ghost use Rattle.md_script.specs.declared.script.Line.{Line};
ghost use Rattle.md_script.specs.Scripts.{verdict};
ghost use Rattle.md_live.specs.Actions.{actions_of};
ghost use Rattle.md_live.specs.Ascending.{FilesAscend};
ghost use Rattle.md_live.specs.Events.{run_events};
ghost use Rattle.md_live.specs.Given.{AreGiven, failures};
ghost use Rattle.md_live.specs.TimeForms.{AreAlwaysInRange, HasNoForm};

/// Where no form of time stands, none is out of range, whenever the run begins.
pub fn no_form_is_in_range()
    ensures { (offset : ℤ) (lines : List Line) → HasNoForm lines → AreAlwaysInRange offset lines }
{}

/// In the run of a script, after each prefix of its events, tables, what replies hand out of them and what clients hold are
/// lists of distinct paths other than the root, in path order: no line of a script names the root.
pub fn files_ascend()
    ensures { (bytes : List ℕ) (lines : List Line) (now offset : ℤ) (givens : List (Option ImportResult)) (before rest : List Event)
        → verdict bytes ≡ Ok lines → run_events (actions_of now offset lines givens) ≡ before ++ rest → FilesAscend before }
{}

/// Of the askings of the files that lines import, no more failed than the count of failures rose by, unless it stands at its
/// type's end; and it stands where none failed.
pub fn askings_are_counted()
    ensures { (offset : ℤ) (known : Option Content) (before now : ℕ) (lines : List Line) (givens : List (Option ImportResult))
        → AreGiven offset known before now lines givens → IsCounted before now (failures givens) }
{}
