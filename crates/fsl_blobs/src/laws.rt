//! Laws on the artifacts that any records leave.
ghost use Rattle.fsl_blobs.specs.Laws.{HeldAreNamed, ShunnedAreNotHeld};

/// Says that each held artifact has the name of its bytes.
pub fn held_are_named()
    ensures { HeldAreNamed }
{}

/// Says that a shunned name isn't held.
pub fn shunned_are_not_held()
    ensures { ShunnedAreNotHeld }
{}
