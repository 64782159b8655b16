//! Laws of typing. Each is a function whose clause is the law, and which does nothing.

ghost use Rattle.std.specs.Prelude.{◌≡◌, ℕ, List, [], None, Ok};
ghost use Rattle.ba_lex.specs.Lines.{tokens_of};
ghost use Rattle.ba_tokens.specs.declared.token.Token.{Token};
ghost use Rattle.ba_trees.specs.FileMarks.{file_marks};
ghost use Rattle.ba_parse.specs.Files.{IsParsed};
ghost use Rattle.ba_trees.specs.declared.tree.statements.RawProgram.{RawProgram};
ghost use Rattle.ba_tree.specs.declared.tree.Program.{Program};
ghost use Rattle.ba_typing.specs.Files.{faults_of, typed_of};
ghost use Rattle.ba_tree_laws.specs.Spelling.{AreTokensOf, Spells};
ghost use Rattle.ba_tree.specs.Trees.{tree_of};

/// Law: trees that are the same written out have the same faults and the same typed program.
pub fn one_typing()
    ensures faults { (tree other : RawProgram) → file_marks tree ≡ file_marks other
        → faults_of tree.externals.items ≡ faults_of other.externals.items }
    ensures typed { (tree other : RawProgram) → file_marks tree ≡ file_marks other
        → typed_of tree.externals.items ≡ typed_of other.externals.items }
{}

/// Law: no list of tokens is that of two programs, and no text spells two. Programs are compared without the
/// capacity of vectors.
pub fn one_program()
    ensures tokens { (tokens : List Token) (p q : Program) → AreTokensOf tokens p
        → AreTokensOf tokens q
        → tree_of p ≡ tree_of q }
    ensures text { (text : List ℕ) (p q : Program) → Spells text p → Spells text q
        → tree_of p ≡ tree_of q }
{}

/// Law: if the tree of a text has a fault or no `main`, the text spells no program.
pub fn no_program()
    ensures fault { (text : List ℕ) (tokens : List Token) (tree : RawProgram) (p : Program)
        → tokens_of text ≡ Ok tokens → IsParsed tokens (file_marks tree) → Spells text p
        → faults_of tree.externals.items ≡ [] }
    ensures main { (text : List ℕ) (tokens : List Token) (tree : RawProgram) (p : Program)
        → tokens_of text ≡ Ok tokens → IsParsed tokens (file_marks tree)
        → typed_of tree.externals.items ≡ None → Spells text p → ⊥ }
{}
