//! Laws of word lists. Each is a function whose clause is the law, and which does nothing.

ghost use Rattle.std.specs.Prelude.{◌≡◌, ◌++◌, ◌&&◌, length};
ghost use Rattle.ba_wordlist.specs.Joining.{IsJoined, behind, joined_at};
ghost use Rattle.ba_wordlist.specs.Meaning.{Assignment, holds, visits_of};
ghost use Rattle.ba_wordlist.specs.declared.words.WordList.{WordList};

/// Law: a list with another one behind it means both. Each assignment of it is one of each. Its requirements
/// hold where those of both do. Its visits are those of the first list and then those of the second.
pub fn joined_lists_mean_both()
    ensures holds { (first second joined : WordList) (f : Assignment) → IsJoined first second joined
        → holds f joined ≡ (holds f first && holds (behind (length first.words) f) second) }
    ensures visits { (first second joined : WordList) (f : Assignment) → IsJoined first second joined
        → visits_of f joined
        ≡ visits_of f first ++ visits_of (behind (length first.words) f) second }
{}

/// Law: each two assignments of two lists are one of the list that has the second behind the first.
pub fn assignments_are_joined()
    ensures holds { (first second joined : WordList) (f g : Assignment)
        → IsJoined first second joined
        → holds (joined_at (length first.words) f g) joined ≡ (holds f first && holds g second) }
    ensures visits { (first second joined : WordList) (f g : Assignment)
        → IsJoined first second joined
        → visits_of (joined_at (length first.words) f g) joined
        ≡ visits_of f first ++ visits_of g second }
{}
