//! Laws on each group's bytes.
ghost use Rattle.fsl_record.specs.Laws.{WrittenReadsBack, IsOneGroup, HasNoFault, HasOneFault};

/// Says that written records read back as the same records.
pub fn written_reads_back()
    ensures { WrittenReadsBack }
{}

/// Says that bytes are the records of one list at most.
pub fn is_one_group()
    ensures { IsOneGroup }
{}

/// Says that bytes that read as records have no fault.
pub fn has_no_fault()
    ensures { HasNoFault }
{}

/// Says that bytes have one fault at most.
pub fn has_one_fault()
    ensures { HasOneFault }
{}
