// Plain search texts and names as expressions.
ghost use Rattle.std.specs.Prelude.{◌≡◌, ◌⊎◌, [], IfOk, IsErrOf, true, chars, length, map};
ghost use Rattle.md_expr_tree.specs.Grammar.{all_of};
ghost use Rattle.md_expr_tree.specs.Reads.{IsFit};
ghost use Rattle.md_expr_tree.specs.WellMade.{is_well_made};
ghost use Rattle.md_expr_plain.specs.Plain.{anywhere, word_test, name_test, words_of, interpreted};

use crate::words::{characters, is_blank, is_word, text_of, word_count};
use md_expr_parse::{MOST_COMPARISONS, ReadError};
use md_expr_tree::{Expr, Literal, Op, Subject, Test};
use md_value::{Memory, Name, NameError, PlainVec as Pieces, Text};
use sqlite_items::Items;
use std::alloc::{AllocError, Global};

/// The most bytes of an expression's text, and of a plain search text.
pub const MOST_BYTES: usize = 65_536;

#[tactic(auto, using(crate::proofs::Texts::no_characters))]
fn empty(alloc: Global) -> Result<Text, AllocError>
    ensures { IfOk result (λ text. text ≡ []) }
{
    Text::of(alloc, "")
}

/// The string `"*TEXT*"cd` with every character of the text literal.
fn anywhere(alloc: Global, text: &str) -> Result<Literal, AllocError>
    ensures { IfOk result (λ v. v ≡ anywhere (chars text.now)) }
{
    let pieces = [empty(alloc)?, Text::of(alloc, text)?, empty(alloc)?];
    Ok(Literal::Words {
        pieces: Pieces::from_vec(Vec::from_array(alloc, pieces)?),
        fold: true,
        marks: true,
    })
}

fn equality(subject: Subject, literal: Literal) -> Expr
    ensures { result ≡ Expr.Test (Test.Compare subject Op.Equal literal) }
{
    Expr::Test(Test::Compare {
        subject,
        op: Op::Equal,
        literal,
    })
}

fn word_test(alloc: Global, word: &[char]) -> Result<Expr, AllocError>
    ensures { IfOk result (λ e. e ≡ word_test word.now) }
{
    let word = text_of(alloc, word)?;
    Ok(equality(Subject::Some, anywhere(alloc, &word)?))
}

/// The tests of a text's words.
fn tests(alloc: Global, text: &[char]) -> Result<Items<Expr>, AllocError>
    ensures { IfOk result (λ es. es ≡ map word_test (words_of text.now)) }
{
    let mut tests = Items::new(alloc);
    for part in text.split(|c| is_blank(*c)) {
        if is_word(part) {
            tests.push(word_test(alloc, part)?)?;
        }
    }
    Ok(tests)
}

fn all_of(tests: Items<Expr>) -> Expr
    ensures { result ≡ all_of tests }
{
    let mut tests = tests;
    if tests.len() == 1
        && let Some(test) = tests.pop()
    {
        test
    } else {
        Expr::All(tests)
    }
}

/// The expression that a plain search text stands for. The text is split at white space: a space, a tab, a line feed
/// or a carriage return. Each word `w` is the comparison `* == "*w*"cd` with every character of `w` literal.
/// One word is that comparison, several are one `All` of them.
///
/// The refusals are tried in this order: `TooLong` exactly where the text has over 65,536 bytes, `NotExpression`
/// exactly where it has no word, `TooMany` exactly where it has over 4,096 words. `TooDeep` never comes.
pub fn interpret(alloc: Global, text: &str) -> Result<Expr, ReadError>
    ensures answer { (result ≡ interpreted text.now) ⊎ IsErrOf result ReadError.Memory }
    ensures fit { IfOk result (λ e. IsFit e) }
    ensures well_made { IfOk result (λ e. is_well_made e ≡ true) }
{
    if MOST_BYTES < text.len() {
        return Err(ReadError::TooLong);
    }
    let text = characters(alloc, text)?;
    let words = word_count(&text);
    if words == 0 {
        return Err(ReadError::NotExpression);
    }
    if MOST_COMPARISONS < words {
        return Err(ReadError::TooMany);
    }
    Ok(all_of(tests(alloc, &text)?))
}

/// The expression `kMDItemFSName == "*TEXT*"cd` with every character of the text literal.
pub fn named(alloc: Global, text: &str) -> Result<Expr, Memory>
    ensures answer { IfOk result (λ e. e ≡ name_test (chars text.now)) }
    ensures fit { IfOk result (λ e. IsFit e) }
    ensures well_made { IfOk result (λ e. is_well_made e ≡ true) }
{
    let name = match Name::read(alloc, "kMDItemFSName") {
        Ok(name) => name,
        Err(NameError::Bad) => unreachable!(),
        Err(NameError::Memory) => return Err(AllocError),
    };
    Ok(equality(Subject::Named(name), anywhere(alloc, text)?))
}
