//! Laws of the seven kinds. These functions have no code.
ghost use Rattle.fsl_forms.specs.Writing.{AreReadBack, AreWrittenExactly};

/// Says that a written value reads back as itself.
pub fn written_texts_read_back()
    ensures { AreReadBack }
{}

/// Says that a value is well formed exactly if it has a text.
pub fn well_formed_have_a_text()
    ensures { AreWrittenExactly }
{}
