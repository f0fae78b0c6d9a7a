//! What the definition of the tokens of a text means, and what numbers stand for which terminals.

ghost use Rattle.fx_c_lex.specs.Laws.{AreInOrder, AreTheOnly, IsFirstPlace};
ghost use Rattle.fx_c_lex.specs.Terminals.{KeywordsAreSpelled, SignsAreSpelled};

/// The tokens of a text ascend in it, each token's slice means its kind and is the longest, and between
/// them there are white space and comments alone. A text has one such list at most. Where it has none,
/// the place is the first where there is no token.
pub fn one_list_of_tokens()
    ensures in_order { AreInOrder }
    ensures only { AreTheOnly }
    ensures first { IsFirstPlace }
{}

/// The number of each keyword and sign, as `keyword` and `sign` have them, stands for its spelling: that
/// spelling means a token of this number, and no other bytes do.
pub fn terminals_are_spelled()
    ensures keywords { KeywordsAreSpelled }
    ensures signs { SignsAreSpelled }
{}
