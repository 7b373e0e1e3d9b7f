//! What the stack promises; the calls compute nothing.
ghost use Rattle.std.specs.Prelude.{◌≡◌, Bool, List, [], ◌++◌};
ghost use Rattle.sat_words.specs.Literal.{Literal};
ghost use Rattle.model_stack.specs.declared.stack.Fix.{Fix};
ghost use Rattle.model_stack.specs.Extend.{extend, Lifts};

/// If models of G lift to F, and those of H to G, those of H lift to F by both stacks, the later one on top. Where
/// nothing is done, models lift by no entry.
pub fn lifts_compose()
    ensures both { (F G H : List (List Literal)) (S T : List Fix) → Lifts F G S → Lifts G H T → Lifts F H (S ++ T) }
    ensures none { (F : List (List Literal)) → Lifts F F [] }
{}

/// What stands on top is walked first.
pub fn stacks_follow()
    ensures { (S T : List Fix) (a : List Bool) → extend (S ++ T) a ≡ extend S (extend T a) }
{}
