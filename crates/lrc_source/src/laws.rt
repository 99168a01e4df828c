// Laws of sources. Each function is a theorem: its body is empty, and its clauses are the law.

ghost use Rattle.std.specs.Prelude.{◌≡◌};
ghost use Rattle.lrc_program.specs.Tree.{program_of};
ghost use Rattle.lrc_source.specs.Sources.{IsSource, SourceRecord};

/// A text has only one source: no other program, and no other lines, labels or names are of it.
pub fn a_text_has_one_source()
    ensures program { (one other : SourceRecord) → IsSource one → IsSource other
        → one.text ≡ other.text → program_of one.program ≡ program_of other.program }
    ensures lines { (one other : SourceRecord) → IsSource one → IsSource other
        → one.text ≡ other.text → one.lines ≡ other.lines }
    ensures labels { (one other : SourceRecord) → IsSource one → IsSource other
        → one.text ≡ other.text → one.labels ≡ other.labels }
    ensures names { (one other : SourceRecord) → IsSource one → IsSource other
        → one.text ≡ other.text → one.names ≡ other.names }
{}
