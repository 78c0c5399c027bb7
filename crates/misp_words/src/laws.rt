//! What holds of all words.

ghost use Rattle.misp_words.specs.Words.{NoDashIsAccepted};

/// Words of which one begins with a dash ask for nothing.
pub fn a_word_with_a_dash_asks_for_nothing()
    ensures { NoDashIsAccepted }
{}
