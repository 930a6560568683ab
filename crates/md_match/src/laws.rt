//! What the meaning of expressions says in other words.

ghost use Rattle.std.specs.Prelude.{◌↔◌, ℕ, Bool, List, IsTrue, map};
ghost use Rattle.md_value.specs.declared.value.Value.TheVariants as value;
ghost use Rattle.md_text.specs.Key.{key};
ghost use Rattle.md_text.specs.Wild.{IsMatch};
ghost use Rattle.md_expr_tree.specs.declared.tree.Op.TheVariants as op;
ghost use Rattle.md_match.specs.Meets.{meets, words};

/// A text meets words under `==` exactly where there are texts between the keys of the pieces that make the text's
/// key of them; with one piece, where the keys are the same.
pub fn words_match()
    ensures { (pieces : List (List ℕ)) (fold marks : Bool) (text : List ℕ)
        → IsTrue (meets op.Equal (value.Text text) (words pieces fold marks))
        ↔ IsMatch (map (key fold marks) pieces) (key fold marks text) }
{}
