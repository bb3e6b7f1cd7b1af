//! A report and its other forms have the same content.

ghost use Rattle.report_forms.specs.Laws.{ReportIsOfItsLines, RowsAreOfTheSameLines, MeantReportIsOfItsLines, MeantRowsAreOfTheSameLines};

/// A report on a population by the rules of a unit, and the rows of words of which its other forms are written, are of one
/// list of lines.
pub fn forms_say_the_same()
    ensures report { ReportIsOfItsLines }
    ensures rows { RowsAreOfTheSameLines }
{}

/// The report that rules mean, and the rows of words of which its other forms are written, are of one list of lines.
pub fn meant_forms_say_the_same()
    ensures report { MeantReportIsOfItsLines }
    ensures rows { MeantRowsAreOfTheSameLines }
{}
