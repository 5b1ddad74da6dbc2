//! Laws of the definitions.

ghost use Rattle.flow_templates.specs.Spellings.{ReadsTemplates};

/// A template that is written as an exporter writes it is read as that template, whatever follows.
pub fn written_templates_are_read_back()
    ensures { ReadsTemplates }
{}
