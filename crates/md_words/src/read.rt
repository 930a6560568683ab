// The reader of the program's words.
ghost use Rattle.std.specs.Prelude.{◌≡◌, true, ◌<◌, IfOk, IfSome, IsErrOf, Some, None, unsigned_abs};
ghost use Rattle.md_words.specs.Words.{texts};
ghost use Rattle.md_words.specs.Grammar.{is_offered, at_offset, offset_then, command_of};

use crate::offset::offset_of;
use crate::tools::tool_of;
use crate::word::first_word;
use crate::{Command, WordsError};
use std::alloc::{AllocError, Global};

#[tactic(auto, unfolding(crate::specs::Grammar::at_offset))]
fn at_offset(alloc: Global, offset: i32, words: &[String]) -> Result<Option<Command>, AllocError>
    requires { unsigned_abs offset < 1440 }
    ensures offset { IfOk result (λ command. IfSome command (λ c. unsigned_abs c.offset < 1440)) }
    ensures offered { IfOk result (λ command. IfSome command (λ c. is_offered c.what ≡ true)) }
    ensures value { IfOk result (λ command. command ≡ at_offset offset (texts words.now)) }
{
    match tool_of(alloc, words)? {
        Some(what) => Ok(Some(Command { offset, what })),
        None => Ok(None),
    }
}

#[tactic(auto, unfolding(crate::specs::Grammar::offset_then))]
fn offset_then(alloc: Global, words: &[String]) -> Result<Option<Command>, AllocError>
    ensures offset { IfOk result (λ command. IfSome command (λ c. unsigned_abs c.offset < 1440)) }
    ensures offered { IfOk result (λ command. IfSome command (λ c. is_offered c.what ≡ true)) }
    ensures value { IfOk result (λ command. command ≡ offset_then (texts words.now)) }
{
    let Some((word, rest)) = first_word(words) else {
        return Ok(None);
    };
    match offset_of(word) {
        Some(offset) => at_offset(alloc, offset, rest),
        None => Ok(None),
    }
}

#[tactic(auto, unfolding(crate::specs::Grammar::command_of))]
fn command_of(alloc: Global, words: &[String]) -> Result<Option<Command>, AllocError>
    ensures offset { IfOk result (λ command. IfSome command (λ c. unsigned_abs c.offset < 1440)) }
    ensures offered { IfOk result (λ command. IfSome command (λ c. is_offered c.what ≡ true)) }
    ensures value { IfOk result (λ command. command ≡ command_of (texts words.now)) }
{
    let Some((word, rest)) = first_word(words) else {
        return Ok(None);
    };
    if word == "-offset" {
        return offset_then(alloc, rest);
    }
    at_offset(alloc, 0, words)
}

/// Reads the words of the program, without the program's own name:
///
/// ```text
/// words    = [ "-offset" OFF ] command
/// OFF      = "Z" | ("+" | "-") HH [":"] MM
/// command  = "mdfind" { findword } [ "--" ] { TEXT }
///          | "mdls" { lsword } [ "--" ] FILE { FILE }
///          | "mdimport" ( "-L" | "-A" | [ "--" ] FILE { FILE } )
///          | "live"
///          | "gen" START N
/// findword = "-0" | "-count" | "-onlyin" DIR | "-name" TEXT | "-literal" | "-interpret"
/// lsword   = "-raw" | "-name" NAME | "-nullMarker" TEXT
/// ```
///
/// HH is 00 to 23 and MM 00 to 59; without `-offset` the offset is 0. Each findword stands at most once, and `-literal` and
/// `-interpret` exclude each other; `-raw` and `-nullMarker` stand at most once. The options end at `--` or at the first
/// word that does not begin with `-`; before that, a word that begins with `-` and is no option is refused. `mdfind` needs
/// `-name` or a TEXT, its TEXT words are joined by one space, and without `-onlyin` its scope is the root. NAME is read by
/// `Name::read`, DIR and FILE by `Path::read`; a FILE of `mdls` is not the root. START is 0 to 18446744073709551615 and N
/// is 1 to 10,000, in digits, of which the first may be zeros. `Usage` comes exactly where the words are not in this grammar.
pub fn read_words(alloc: Global, words: &[String]) -> Result<Command, WordsError>
    ensures ok { IfOk result (λ command. command_of (texts words.now) ≡ Some command) }
    ensures offset { IfOk result (λ command. unsigned_abs command.offset < 1440) }
    ensures offered { IfOk result (λ command. is_offered command.what ≡ true) }
    ensures usage { IsErrOf result WordsError.Usage → command_of (texts words.now) ≡ None }
{
    match command_of(alloc, words)? {
        Some(command) => Ok(command),
        None => Err(WordsError::Usage),
    }
}
