// The rule of a board, said of what its words stand for: each function's contract is one law.
ghost use Rattle.xc_board.specs.Laws.{FittingHasThreeCases, RuleIsSound, WordsStandForStates};

/// That a number fits a word is said by one implication. It is the same as the three cases: the number is at most the
/// word's time; or the word waits, and the number is at most the end of the tablet's parent; or the tablet is gone.
pub fn fitting_has_three_cases()
    ensures { FittingHasThreeCases }
{}

/// The words that may stand on a board together stand for the states that its tablets may be in, and each such states
/// are spelled by such words.
pub fn words_stand_for_states()
    ensures { WordsStandForStates }
{}

/// What the rule of a board says between any two steps: the watermark fits every word, and a seat's bound every word
/// below its next one; the tablets are in states that they may be in; what a seat has seen is at most the watermark,
/// and each word is at or past what a seat knows of it.
pub fn rule_is_sound()
    ensures { RuleIsSound }
{}
