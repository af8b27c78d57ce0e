//! Laws of artifacts.
ghost use Rattle.fsl_artifact.specs.Kind.{IsOfOneKind, IsOneArtifact, IsSomeArtifact};

/// Says that a text is one artifact at most.
pub fn text_is_one_artifact()
    ensures { IsOneArtifact }
{}

/// Says that each text is some artifact.
pub fn text_is_some_artifact()
    ensures { IsSomeArtifact }
{}

/// Says that a text has one value of one kind at most, so that no text is of two kinds.
pub fn text_is_of_one_kind()
    ensures { IsOfOneKind }
{}
