//! Messages, diagnostics and properties.

ghost use Rattle.sch_plan.specs.Rules.{message, name_part, one_diagnostic, one_part, value_part};
ghost use Rattle.sch_phases.specs.Walk.{Answers};

use crate::scopes::Scopes;
use doc_tree::NodeId;
use sch_base::{ItemList, Text};
use sch_compiled::{PlanDiagnostic, PlanPart, PlanPartList};
use sch_model::{Diagnostic, Part, SchemaError};
use std::alloc::Global;

impl Scopes {
    /// The text of an expression's value.
    fn value_part(&self, node: NodeId, select: &str) -> Result<PlanPart, SchemaError>
        ensures { Answers (value_part self.now node select.now) result }
    {
        let expr = self.expression(node, select)?;
        Ok(PlanPart::ValueOf(expr))
    }

    /// The name of a node.
    fn name_part(&self, node: NodeId, path: &Option<Text>) -> Result<PlanPart, SchemaError>
        ensures { Answers (name_part self.now node path.now) result }
    {
        let path = self.optional_path(node, path)?;
        Ok(PlanPart::Name(path))
    }

    /// A part of a message. Its characters are copied.
    fn one_part(&self, alloc: Global, part: &Part) -> Result<PlanPart, SchemaError>
        ensures { Answers (one_part self.now part.now) result }
    {
        match part {
            Part::Chars(text) => Ok(PlanPart::Chars(Text::copy(alloc, text.as_str())?)),
            Part::ValueOf { node, select } => self.value_part(*node, select.as_str()),
            Part::Name { node, path } => self.name_part(*node, path),
        }
    }

    /// A message.
    pub(crate) fn message(&self, alloc: Global, parts: &[Part]) -> Result<PlanPartList, SchemaError>
        ensures { Answers (message self.now parts.now) result }
    {
        let mut list = ItemList::new(alloc);
        for part in parts {
            list.push(self.one_part(alloc, part)?)?;
        }
        Ok(list)
    }

    /// A diagnostic, or a property. Several assertions may name it, so its texts are copied.
    pub(crate) fn one_diagnostic(
        &self,
        alloc: Global,
        diagnostic: &Diagnostic,
    ) -> Result<PlanDiagnostic, SchemaError>
        ensures { Answers (one_diagnostic self.now diagnostic.now) result }
    {
        let message = self.message(alloc, diagnostic.message.as_slice())?;
        let id = Text::copy(alloc, diagnostic.id.as_str())?;
        Ok(PlanDiagnostic { id, message })
    }
}
