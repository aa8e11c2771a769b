ghost use Rattle.carte_value.specs.Reading.{OneReading, PrintedReads};

/// A text is read as one value at most.
pub fn one_reading()
    ensures { OneReading }
{}

/// What was printed is read as the value, bad values aside.
pub fn printed_reads()
    ensures { PrintedReads }
{}
