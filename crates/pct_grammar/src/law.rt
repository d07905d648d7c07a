//! The theorems on texts and the scripts that they spell.

ghost use Rattle.pct_grammar.specs.Laws.{SpelledTextsAreFaultless, FaultlessTextsAreSpelled, ScriptsAreOne, CanonSpells};

/// An empty function whose contract states the theorems. A text has no fault if and only if it spells a script. A text spells
/// at most one script, and the canonical text of a script spells it.
pub fn texts_spell_scripts()
    ensures faultless { SpelledTextsAreFaultless }
    ensures spelled { FaultlessTextsAreSpelled }
    ensures one { ScriptsAreOne }
    ensures canon { CanonSpells }
{}
