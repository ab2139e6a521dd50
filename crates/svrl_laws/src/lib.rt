//! What holds of reports: what was written is read back, and so is what a plan says of a tree.
#![tactic(auto)]

ghost use Rattle.svrl_laws.specs.ReadBack.{ReportsAreReadBack, ReportsSayWhatPlansFind, ReportsSayWhatWasFound};

/// Where the lines of a report are a document, the tree of that document says the report, and has no fault as one.
pub fn reports_are_read_back()
    ensures { ReportsAreReadBack }
{
    sch_base::qnames_split();
    pyx_core::written_is_read_back();
    doc_tree::well_formed_is_enough();
}

/// Where the report of some outcomes is a document, the tree of that document says the same as the plan by these outcomes.
pub fn reports_say_what_was_found()
    ensures { ReportsSayWhatWasFound }
{
    reports_are_read_back();
}

/// Where a tree has no fault under a plan and its report is a document, the tree of that document says what the plan finds:
/// its patterns, and for each of them the rules that fired and the findings, each as often and in document order.
pub fn reports_say_what_plans_find()
    ensures { ReportsSayWhatPlansFind }
{
    reports_say_what_was_found();
}
