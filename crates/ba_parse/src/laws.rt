//! Laws of the grammar. Each is a function whose clause is the law, and which does nothing.

ghost use Rattle.std.specs.Prelude.{◌≡◌, List};
ghost use Rattle.ba_tokens.specs.declared.token.Token.{Token};
ghost use Rattle.ba_trees.specs.declared.tree.statements.RawProgram.{RawProgram};
ghost use Rattle.ba_trees.specs.FileMarks.{file_marks};
ghost use Rattle.ba_trees.specs.Marks.{Mark};
ghost use Rattle.ba_parse.specs.Files.{IsFile, Verdict, Says, Said};

/// Law: no list of tokens is that of two files, and two trees of one file are the same written out.
pub fn one_tree()
    ensures written { (tokens : List Token) (tree other : List Mark) → IsFile tokens tree
        → IsFile tokens other → tree ≡ other }
    ensures trees { (tokens : List Token) (tree other : RawProgram)
        → IsFile tokens (file_marks tree) → IsFile tokens (file_marks other) → file_marks tree
        ≡ file_marks other }
{}

/// Law: the grammar says one thing of each list of tokens. It is a file's, with its tree; or it has its one
/// syntax error; or its one token that is too deep.
pub fn one_verdict()
    ensures some { (tokens : List Token) → Said tokens }
    ensures one { (tokens : List Token) (verdict other : Verdict) → Says tokens verdict
        → Says tokens other → verdict ≡ other }
{}
