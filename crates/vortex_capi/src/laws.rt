//! Laws of what callers in C are answered.
ghost use Rattle.vortex_capi.specs.Laws.{PiecesAnswerAlike};

/// Zones that are pruned apart have the answers that they have together: the answer for a zone goes
/// by its row count and its statistics alone.
pub fn pieces_answer_alike()
    ensures { PiecesAnswerAlike }
{}
