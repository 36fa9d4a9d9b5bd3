// The laws of source scripts, each the contract of one function.
ghost use Rattle.xc_source_script.specs.Spelled.{ReadIsSpelled, SpelledIsRead, SpellsOne};

/// A text that spells a source script is read as that script.
pub fn what_is_spelled_is_read()
    ensures { SpelledIsRead }
{}

/// No text spells two source scripts.
pub fn no_text_spells_two_source_scripts()
    ensures { SpellsOne }
{}

/// A text that is read as a source script spells it: no other text is read.
pub fn what_is_read_is_spelled()
    ensures { ReadIsSpelled }
{}
