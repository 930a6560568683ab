// What holds of every script that is made.
ghost use Rattle.md_gen.specs.Reads.{EachIsRead};

/// For every start and every number of files from 1 to 10,000, the script that is made is accepted by the reader of
/// scripts, as lines at the moment 0 of a run, and the forms of time of their queries, resolved from the moment 0 in UTC, are in
/// range.
pub fn each_is_read()
    ensures { EachIsRead }
{}
