//! What holds of pages.

ghost use Rattle.page.specs.Reading.{ReadAsWritten};

/// What a browser reads of an escaped text is the text.
pub fn read_as_written()
    ensures { ReadAsWritten }
{}
