//! Laws of spelling and decoding.
//!
//! Each speaks of the definitions alone; the functions do nothing.

ghost use Rattle.fx_x64_code.specs.Laws.{DecodesSpelling, DecodedIsSpelled, UndecodedIsUnspelled, UnspelledIsUndecoded, PrefixIsUndecoded, PrefixFree, OneInstruction, OneSpelling, SpellingLengths};

/// What is spelled at the front of some bytes is decoded, whatever follows it.
pub fn decodes_spelling()
    ensures { DecodesSpelling }
{}

/// What is decoded is spelled at the front, and its length is that of the spelling.
pub fn decoded_is_spelled()
    ensures { DecodedIsSpelled }
{}

/// Where nothing is decoded, no spelling begins the bytes.
pub fn undecoded_is_unspelled()
    ensures { UndecodedIsUnspelled }
{}

/// Where no spelling begins the bytes, nothing is decoded.
pub fn unspelled_is_undecoded()
    ensures { UnspelledIsUndecoded }
{}

/// A proper prefix of a spelling decodes to nothing, so that bytes can be fetched one at a time.
pub fn prefix_is_undecoded()
    ensures { PrefixIsUndecoded }
{}

/// No spelling is a proper prefix of another, nor spells two instructions.
pub fn prefix_free()
    ensures { PrefixFree }
{}

/// Bytes spell one instruction at most.
pub fn one_instruction()
    ensures { OneInstruction }
{}

/// An instruction has one spelling.
pub fn one_spelling()
    ensures { OneSpelling }
{}

/// A spelling has 1 to 10 bytes.
pub fn spelling_lengths()
    ensures { SpellingLengths }
{}
