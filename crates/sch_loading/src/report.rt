//! A report: the document that is named, read as one, or what stops the run on the way.

ghost use Rattle.std.specs.Prelude.{◌≡◌, true, [], ◌∷◌, IfErr};
ghost use Rattle.doc_tree.specs.Kinds.{is_document};
ghost use Rattle.sch_loading.specs.Loading.{Reporting, Saying};
ghost use Rattle.sch_loading.specs.Reads.{EndsAs, Reads, file};
ghost use Rattle.sch_loading.specs.inner.Refusing.{IsInner, IsReportRefusal};

use crate::loading::load_document;
use crate::schema::place_of;
use doc_tree::Tree;
use sch_base::Text;
use sch_io::Shelf;
use sch_stops::{DocumentRefusal, Stop};
use std::alloc::{AllocError, Global};
use svrl_read::{SvrlError, SvrlReport, read_svrl};

/// The named report; the name is kept for the line that tells of it.
pub fn load_report<S: Shelf>(alloc: Global, name: Text, shelf: &mut S) -> Result<SvrlReport, Stop>
    ensures { Reads (S.state shelf.old) (S.state shelf.new) (file name ∷ []) (λ files. Reporting files name) (λ report. report) result }
{
    let tree = load_document(alloc, name, shelf)?;
    report_of(alloc, &tree)
}

/// The report that the tree of a document says.
fn report_of(alloc: Global, tree: &Tree) -> Result<SvrlReport, Stop>
    requires { is_document tree.now.nodes ≡ true }
    ensures ends { EndsAs (Saying tree.now.nodes []) (λ report. report) result }
    ensures inner { IfErr result IsInner }
{
    match read_svrl(alloc, tree) {
        Ok(report) => Ok(report),
        Err(error) => Err(refused(alloc, tree, error)),
    }
}

/// What stops a run whose report, with this tree, is refused for the error.
fn refused(alloc: Global, tree: &Tree, error: SvrlError) -> Stop
    ensures refusal { IsReportRefusal tree.now.nodes error result }
    ensures inner { IsInner result }
{
    let SvrlError::Fault(fault) = error else {
        return Stop::Memory;
    };
    match place_of(alloc, tree, fault.node) {
        Ok(location) => Stop::DocumentRefused(DocumentRefusal::Report { fault, location }),
        Err(AllocError) => {
            drop(fault);
            Stop::Memory
        }
    }
}
