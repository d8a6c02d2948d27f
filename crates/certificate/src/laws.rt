//! Laws of the definitions: what ties the reading of a text to its spelling.

ghost use Rattle.certificate.specs.Laws.{HeaderIsSpelled, PenaltyIsSpelled, IntervalIsSpelled};
ghost use Rattle.certificate.specs.Laws.{CountIsSpelled, EntryIsSpelled};
ghost use Rattle.certificate.specs.Laws.{NamedRowIsSpelled, RowIsSpelled};
ghost use Rattle.certificate.specs.Laws.{TextsAreRead, LongTextsAreRefused};
ghost use Rattle.certificate.specs.Laws.{TextsDiffer, EachHasOneText};
ghost use Rattle.certificate.specs.Laws.{NamesRiseAsNumbers, RowsRiseAsNumbers};

/// A line is of the form of its place exactly where it is spelled so, and a certificate is read
/// exactly where the bytes are its text. Each certificate has one text, each text one certificate.
/// Names in a table are in the order of their places, so that rows of names rise where those of
/// numbers do.
pub fn text_laws()
    ensures header { HeaderIsSpelled }
    ensures penalty { PenaltyIsSpelled }
    ensures interval { IntervalIsSpelled }
    ensures count { CountIsSpelled }
    ensures entry { EntryIsSpelled }
    ensures named_row { NamedRowIsSpelled }
    ensures row { RowIsSpelled }
    ensures reads { TextsAreRead }
    ensures refuses_long { LongTextsAreRefused }
    ensures texts_differ { TextsDiffer }
    ensures one_text { EachHasOneText }
    ensures names_rise { NamesRiseAsNumbers }
    ensures rows_rise { RowsRiseAsNumbers }
{}
