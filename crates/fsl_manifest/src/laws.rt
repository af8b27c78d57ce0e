//! Laws of manifests and their texts. These functions have no code.
ghost use Rattle.fsl_manifest.specs.Writing.{IsFirstOwn, IsReadBack, IsWrittenExactly};

/// Says that a written manifest reads back as itself.
pub fn written_text_reads_back()
    ensures { IsReadBack }
{}

/// Says that a manifest is well formed exactly if it has a text.
pub fn well_formed_have_a_text()
    ensures { IsWrittenExactly }
{}

/// Says that the first own name among the parents of a manifest is its first parent.
pub fn first_parent_is_own()
    ensures { IsFirstOwn }
{}
