// The laws of log texts, each the contract of one function.
ghost use Rattle.xc_text.specs.Spelled.{SpelledIsRead, SpellsOne, ReadIsSpelled, PrintedIsSpelled};

/// A text that spells logs is read as those logs, in whatever order the lines of its tablets are mixed.
pub fn what_is_spelled_is_read()
    ensures { SpelledIsRead }
{}

/// No text spells two logs.
pub fn no_text_spells_two_logs()
    ensures { SpellsOne }
{}

/// A text that is read as logs spells them: no other text is read.
pub fn what_is_read_is_spelled()
    ensures { ReadIsSpelled }
{}

/// What is printed of valid logs spells them.
pub fn what_is_printed_is_spelled()
    ensures { PrintedIsSpelled }
{}
