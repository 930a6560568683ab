//! What holds of every command.
ghost use Rattle.md_files.specs.FileAnswers.{IsCounted};
ghost use Rattle.md_tool.specs.Asking.{CommandAsks};
ghost use Rattle.md_tool.specs.Failures.{failures};
ghost use Rattle.md_tool.specs.Outside.{Inputs};
ghost use Rattle.md_tool.specs.Reports.{Report};
ghost use Rattle.md_words.specs.declared.command.Command.{Command};

/// Of the askings of the tree that a command makes, no more failed than its count of failures rose by, unless that stands at its
/// type's end; and it stands where none failed.
pub fn askings_are_counted()
    ensures { (command : Command) (old new : Inputs) (report : Report) (asks : CommandAsks command old new report)
        → IsCounted old.tree.failures new.tree.failures (failures command old new report asks) }
{}
