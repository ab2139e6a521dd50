//! The first of the faults of a schema that are told.

ghost use Rattle.std.specs.Prelude.{◌≡◌, None, Some, OnOk};
ghost use Rattle.sch_first_fault.specs.Earlier.{earlier, precedes};
ghost use Rattle.sch_first_fault.specs.Ended.{Ended};
ghost use Rattle.sch_first_fault.specs.inner.Later.{is_later};

use doc_tree::NodeId;
use sch_base::Text;
use sch_model::{SchemaError, SchemaFault};
use std::alloc::{AllocError, Global};
use std::marker::Model;

/// The first of the faults that were told so far, seen by contracts as that fault.
#[derive(Drop)]
pub struct FirstFault {
    alloc: Global,
    fault: Option<SchemaFault>,
}

impl Model for FirstFault {
    ghost use Rattle.std.specs.Prelude.{Option};
    ghost use Rattle.sch_model.specs.declared.fault.SchemaFault.{SchemaFault};

    ghost Value = { Option SchemaFault };

    ghost view = { λ f. f.fault };
}

impl FirstFault {
    /// No fault was told.
    pub fn new(alloc: Global) -> FirstFault
        ensures { result ≡ None }
    {
        FirstFault { alloc, fault: None }
    }

    /// Tells a fault. Its name is copied where no fault so far stands before it.
    pub fn tell(&mut self, rule: u32, node: NodeId, name: &str) -> Result<(), AllocError>
        ensures { OnOk result (self.new ≡ earlier self.old (Some (record { rule = rule; node = node; name = name.now }))) }
    {
        if self.is_later(rule, node) {
            self.fault = Some(SchemaFault {
                rule,
                node,
                name: Text::copy(self.alloc, name)?,
            });
        }
        Ok(())
    }

    /// Whether there is no fault yet, or only one that a fault of the rule at the node precedes.
    fn is_later(&self, rule: u32, node: NodeId) -> bool
        ensures { result ≡ is_later rule node self.now }
    {
        match &self.fault {
            Some(fault) => {
                node.index() < fault.node.index() || (node == fault.node && rule < fault.rule)
            }
            None => true,
        }
    }

    /// Refuses where a fault was told.
    pub fn end(self) -> Result<(), SchemaError>
        ensures { Ended self result }
    {
        match self.fault {
            Some(fault) => Err(SchemaError::Fault(fault)),
            None => Ok(()),
        }
    }
}
