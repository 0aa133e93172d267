//! A lemma for proofs, about answers. It does nothing.

ghost use Rattle.getopts_shell.specs.Program.{OneAnswer};

/// Words have exactly one status and one text. This is a lemma for proofs, which does nothing.
pub fn words_have_one_answer()
    ensures one_answer { OneAnswer }
{}
