//! Laws of reports.
ghost use Rattle.ap_report.specs.Laws.{AllAreReported, ReportIsOne};

/// Each command has one report on a text: that of its first fault, or what is answered for its program.
pub fn a_text_has_one_report()
    ensures { ReportIsOne }
{}

/// Where all answers are wanted, the report on a program has the lines of all outputs of its queries.
pub fn all_outputs_are_reported()
    ensures { AllAreReported }
{}
