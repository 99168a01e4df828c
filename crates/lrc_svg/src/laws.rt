// What always holds of texts of pictures. Each function is a theorem: its body is empty, and its clause is the law.

ghost use Rattle.lrc_svg.specs.declared.element.Document.{Document};
ghost use Rattle.lrc_svg.specs.Reading.{IsWellFormed};
ghost use Rattle.lrc_svg.specs.Texts.{document_text};

/// The text of every picture is well-formed, if no element names an attribute twice. A reader that knows nothing of the
/// elements, and only keeps which are open, reads it to its end.
pub fn documents_are_well_formed()
    ensures { (document : Document) → IsWellFormed (document_text document) }
{}
