//! Laws of the generated artifacts. These functions have no code.
ghost use Rattle.fsl_gen.specs.Arrival.{ArrivesEachOnce, HasAsMany, IsReversed};
ghost use Rattle.fsl_gen.specs.Artifacts.{FollowsTable, IsToldByTable, NamesEarlierOnes, artifact_text};

/// Says that the text of each artifact follows the table by its number and the names of the others.
pub fn follows_table()
    ensures { FollowsTable artifact_text }
{}

/// Says that texts that follow the table are these, so that the table fixes each of them.
pub fn is_told_by_table()
    ensures { IsToldByTable }
{}

/// Says that an artifact names none but those with a smaller number.
pub fn names_earlier_ones()
    ensures { NamesEarlierOnes }
{}

/// Says that each number below the count occurs once in each of the two orders.
pub fn arrives_each_once()
    ensures { ArrivesEachOnce }
{}

/// Says that there are as many texts as the count.
pub fn has_as_many()
    ensures { HasAsMany }
{}

/// Says that the reversed list is the other from its end.
pub fn reverses()
    ensures { IsReversed }
{}
