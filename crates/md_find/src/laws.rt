//! What holds of searches, whatever the tree and the clock answer.
ghost use Rattle.std.specs.Prelude.{◌≡◌, ◌≢◌, ◌↔◌, ℕ, ℤ, true, List, [], Option, None, Result, Err};
ghost use Rattle.md_value.specs.Values.{PathBytes};
ghost use Rattle.md_source.specs.Tree.{Content};
ghost use Rattle.md_expr_tree.specs.declared.tree.Expr.{Expr};
ghost use Rattle.md_expr_parse.specs.declared.read.ReadError.{ReadError};
ghost use Rattle.md_expr_parse.specs.declared.read.ReadError.TheVariants.{Memory};
ghost use Rattle.md_expr.specs.Verdict.{IsVerdict};
ghost use Rattle.md_match.specs.Forms.{forms, first_out_of_range};
ghost use Rattle.md_files.specs.FileAnswers.{IsCounted};
ghost use Rattle.md_find.specs.Folders.{Folder, IsFolder, folder_failures};
ghost use Rattle.md_find.specs.Searches.{looks_like_expression, searched};
ghost use Rattle.md_words.specs.declared.command.Mode.TheVariants.{Literal, Guess};

/// Of the askings of a search, no more failed than the count of failures rose by, unless it stands at its type's end; and it
/// stands where none failed.
pub fn askings_are_counted()
    ensures { (known : Option Content) (before now : ℕ) (path : PathBytes) (folder : Folder)
        → IsFolder known before now path folder → IsCounted before now (folder_failures folder) }
{}

/// An expression without forms of time has none that is out of range, whatever moment the clock shows.
pub fn no_form_is_in_range()
    ensures { (moment offset : ℤ) (expr : Expr) → forms expr ≡ [] → first_out_of_range moment offset expr ≡ None }
{}

/// A search text that is taken for an expression gives the answer that the grammar and the limits allow, and want of memory is
/// none.
pub fn literal_text_is_read()
    ensures literal { (text : List ℕ) (answer : Result Expr ReadError) → (searched Literal text ≡ answer) ↔ (IsVerdict answer text × (answer ≢ Err Memory)) }
    ensures guessed { (text : List ℕ) → looks_like_expression text ≡ true → searched Guess text ≡ searched Literal text }
{}
