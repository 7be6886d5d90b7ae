//! What holds of the definitions.
ghost use Rattle.tx_parse.specs.Laws.{SheetsAreRead, InlineTextsAreRead, TextsAreRead, DefaultSheetIsRead, FaultsAreFirst};

/// A list of tokens is read as a sheet exactly where it is in the grammar.
pub fn sheets_are_read()
    ensures { SheetsAreRead }
{}

/// A list of tokens is read as an inline text exactly where it is in the grammar.
pub fn inline_texts_are_read()
    ensures { InlineTextsAreRead }
{}

/// Bytes are read exactly where they are a sheet, or an inline text, in the grammar.
pub fn texts_are_read()
    ensures { TextsAreRead }
{}

/// The text of the default sheet is a sheet in the grammar, and what it says are the default rules.
pub fn default_sheet_is_read()
    ensures { DefaultSheetIsRead }
{}

/// Where a fault is met at a token, nothing that begins with the tokens up to and with that one is
/// in the grammar. Where it is met at the end, the list itself isn't.
pub fn faults_are_first()
    ensures { FaultsAreFirst }
{}
