ghost use Rattle.std.specs.Prelude.{◌≡◌, ℕ, List, Some};
ghost use Rattle.script_grammar.specs.declared.grammar.ScriptLine.{ScriptLine};
ghost use Rattle.script_grammar.specs.Grammar.{line_of};
ghost use Rattle.script_grammar.specs.Spelling.{Spells};

/// A line is read exactly if its bytes encode it: what is read is encoded so, and what is encoded so is read.
pub fn lines_read_back()
    ensures spelled { (line : ScriptLine) (bytes : List ℕ) → line_of bytes ≡ Some line → Spells line bytes }
    ensures read { (line : ScriptLine) (bytes : List ℕ) → Spells line bytes → line_of bytes ≡ Some line }
{}
