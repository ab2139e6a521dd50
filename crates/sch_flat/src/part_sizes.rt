//! How large the elements of the document are.

ghost use Rattle.sch_flat.specs.FlatDocument.{active_events, assertion_events, let_events, ns_events, part_events, pattern_events, phase_events, rule_events};

use crate::given::Given;
use crate::known_sizes::{
    RuleLabels, assertion_size, let_size, name_size, option_len, pattern_size, rule_size, text_len,
    value_of_size,
};
use crate::lines::{characters_size, element_size};
use crate::measured::{Measured, size_of_all};
use crate::size::FlatSize;
use sch_model::{Active, Assertion, FlatPattern, FlatRule, LetDecl, Ns, Part, Phase};

impl Measured for Ns {
    ghost events = { ns_events };

    fn size(&self) -> FlatSize {
        element_size(
            "sch:ns",
            &[
                Given::Always("prefix", &self.prefix),
                Given::Always("uri", &self.uri),
            ],
            FlatSize::none(),
        )
    }
}

impl Measured for LetDecl {
    ghost events = { let_events };

    fn size(&self) -> FlatSize {
        let_size(&self.name, text_len(&self.value))
    }
}

impl Measured for Active {
    ghost events = { active_events };

    fn size(&self) -> FlatSize {
        element_size(
            "sch:active",
            &[Given::Always("pattern", &self.pattern)],
            FlatSize::none(),
        )
    }
}

impl Measured for Phase {
    ghost events = { phase_events };

    fn size(&self) -> FlatSize {
        let held = size_of_all(&self.lets).then(size_of_all(&self.active));
        element_size("sch:phase", &[Given::Always("id", &self.id)], held)
    }
}

impl Measured for Part {
    ghost events = { part_events };

    fn size(&self) -> FlatSize {
        match self {
            Part::Chars(text) => characters_size(text),
            Part::ValueOf { select, .. } => value_of_size(text_len(select)),
            Part::Name { path, .. } => name_size(option_len(path)),
        }
    }
}

impl Measured for Assertion {
    ghost events = { assertion_events };

    fn size(&self) -> FlatSize {
        assertion_size(
            self,
            text_len(&self.test),
            option_len(&self.subject),
            size_of_all(&self.message),
        )
    }
}

impl Measured for FlatRule {
    ghost events = { rule_events };

    fn size(&self) -> FlatSize {
        let held = size_of_all(&self.lets).then(size_of_all(&self.assertions));
        let labels = RuleLabels {
            id: &self.id,
            role: &self.role,
            flag: &self.flag,
        };
        rule_size(
            labels,
            text_len(&self.context),
            option_len(&self.subject),
            held,
        )
    }
}

impl Measured for FlatPattern {
    ghost events = { pattern_events };

    fn size(&self) -> FlatSize {
        let held = size_of_all(&self.lets).then(size_of_all(&self.rules));
        pattern_size(&self.id, held)
    }
}
