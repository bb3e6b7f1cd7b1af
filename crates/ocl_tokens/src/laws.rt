//! Laws of the definitions: the contracts of functions that do nothing.

ghost use Rattle.ocl_tokens.specs.Laws.{HasOneTokenList, HasOneFault, NeverBoth, HasTokensOrFault, KeepsReservedWords, NamesNothingReserved};

/// A text has at most one list of tokens, at most one of the faults 1 to 5, and never both.
pub fn tokens_are_determined()
    ensures tokens { HasOneTokenList }
    ensures fault { HasOneFault }
    ensures never_both { NeverBoth }
{}

/// Each text has tokens, or one of the faults 1 to 5.
pub fn each_text_has_tokens_or_a_fault()
    ensures { HasTokensOrFault }
{}

/// The words with a token of their own are the reserved ones, and an identifier is none of them.
pub fn reserved_words_are_tokens()
    ensures table { KeepsReservedWords }
    ensures identifier { NamesNothingReserved }
{}
