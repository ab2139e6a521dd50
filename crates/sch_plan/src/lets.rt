//! Lets.

ghost use Rattle.std.specs.Prelude.{◌≡◌, false};
ghost use Rattle.xp_typed_tree.specs.WellTyped.{type_of};
ghost use Rattle.sch_plan.specs.Lets.{all_lets, is_seen, one_let, seen_after};
ghost use Rattle.sch_phases.specs.Walk.{Answers, goes};
ghost use Rattle.sch_plan.specs.inner.Moved.{moved};

use crate::scopes::Scopes;
use sch_base::{ItemList, Text};
use sch_compiled::{PlanLet, PlanLetList};
use sch_model::{LetDecl, LetDeclList, SchemaError, SchemaFault};
use std::alloc::Global;
use xp_typed_tree::Typed;

impl Scopes {
    /// A let, which is seen by what comes after it. Its name is moved.
    fn one_let(&mut self, its: LetDecl) -> Result<PlanLet, SchemaError>
        ensures { Answers (one_let self.old its) (moved self.new result) }
    {
        let LetDecl { node, name, value } = its;
        if self.has(name.as_str()) {
            drop(value);
            return Err(SchemaError::Fault(SchemaFault {
                rule: 22,
                node,
                name,
            }));
        }
        let expr = self.expression(node, value.as_str());
        drop(value);
        match expr {
            Ok(expr) => self.see(name, expr),
            Err(error) => {
                drop(name);
                Err(error)
            }
        }
    }

    /// A let whose name isn't seen yet, which is seen from now on.
    fn see(&mut self, name: Text, expr: Typed) -> Result<PlanLet, SchemaError>
        requires { is_seen self.old name ≡ false }
        ensures { Answers (goes (seen_after self.old name (type_of expr), record { name = name; expr = expr })) (moved self.new result) }
    {
        match self.add(name.as_str(), expr.ty()) {
            Ok(()) => Ok(PlanLet { name, expr }),
            Err(_) => {
                drop(expr);
                drop(name);
                Err(SchemaError::Memory)
            }
        }
    }

    /// Lets in their order.
    pub(crate) fn all_lets(
        &mut self,
        alloc: Global,
        lets: LetDeclList,
    ) -> Result<PlanLetList, SchemaError>
        ensures { Answers (all_lets self.old lets) (moved self.new result) }
    {
        let mut list = ItemList::new(alloc);
        for its in lets.into_vec() {
            list.push(self.one_let(its)?)?;
        }
        Ok(list)
    }
}
