//! Laws on all dates. These calls do nothing; a proof takes their clauses.
ghost use Rattle.fsl_date.specs.Moment.{DatesReadAsWritten, IsAlwaysPrinted, IsPrintedOnce};

/// Says that each date has one text and each text one moment. A moment is printed as the text of its date and time of day, and as
/// no other. Each text of a date is read as its moment, and no other text is read.
pub fn dates_have_one_text()
    ensures printed { IsAlwaysPrinted }
    ensures once { IsPrintedOnce }
    ensures read { DatesReadAsWritten }
{}
