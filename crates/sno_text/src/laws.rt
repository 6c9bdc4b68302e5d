//! Laws of the grammar, as contracts of functions that do nothing.
ghost use Rattle.std.specs.Prelude.{◌≡◌, ℕ, List};
ghost use Rattle.sno_text.specs.Trees.{Tree};
ghost use Rattle.sno_text.specs.Grammar.{IsExpression};

/// The grammar relates at most one tree to a text.
pub fn one_tree()
    ensures { (s : List ℕ) (t u : Tree) → IsExpression s t → IsExpression s u → u ≡ t }
{}
