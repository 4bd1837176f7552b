//! Laws of the words of a line, in the words of its definitions. The functions carry them by their
//! contracts.
ghost use Rattle.vortex_syntax.specs.Spelling.{LinesAreWords, WordsAreReadBack};

/// Words that are written in a line, with spaces between them, are read back: plain ones as they
/// are, and texts between quotes with a backslash before each quote and backslash. So a plain word
/// ends at a space and nowhere else. Every line without a broken word is written so.
pub fn words_are_read_back()
    ensures read_back { WordsAreReadBack }
    ensures written { LinesAreWords }
{}
