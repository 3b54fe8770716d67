//! What is printed, shown by an example.

ghost use Rattle.std.specs.Prelude.{◌≡◌, true, [], ◌∷◌};
ghost use Rattle.call_words.specs.Example.{job_words, printed, report, shown};
ghost use Rattle.call_words.specs.Printed.{line_report_text};

/// A report with entries of all kinds, as it is printed.
pub fn a_report_is_printed()
    ensures { line_report_text report job_words 3 (shown ∷ []) true ≡ printed }
{}
