//! What holds of the definitions, as calls that do nothing.

ghost use Rattle.svrl_summary.specs.Labels.{LabelsAreCounted};

/// Labels that are counted stand in the order of their bytes, each once, with how often it stands among all.
pub fn labels_are_counted()
    ensures { LabelsAreCounted }
{}
