//! Why a schema, a document or an edit script is refused, and the lines that say so.

ghost use Rattle.std.specs.Prelude.{◌≡◌, ◌++◌, codes};
ghost use Rattle.pyx_core.specs.Escapes.{escaped};
ghost use Rattle.sch_io.specs.Wrote.{Wrote};
ghost use Rattle.sch_stops.specs.Refusals.{kind_words, pyx_words, reason_text, fault_text, rule_text, document_refused_line, include_line, include_text, include_words, schema_refused_line, schema_rule_line, place_text, report_line, script_fault_line, script_refused_line, script_words, svrl_name, svrl_text, svrl_word};

use crate::watches::WatchesRefusal;
use edit_script::{ScriptFault, ScriptKind};
use itoa::Buffer;
use name_scopes::{DocFault, DocKind};
use pyx_core::PyxKind;
use pyx_write::{write_escaped, write_line_rest};
use sch_base::Text;
use sch_include::IncludeKind;
use sch_io::{Failed, Sink, write_all, write_pieces};
use sch_model::SchemaFault;
use svrl_read::{SvrlFault, SvrlKind};

/// Why a file is not read as a tree.
#[derive(Clone, Copy)]
pub enum FileRefusal {
    /// It has more bytes than a file may have.
    TooLarge,
    /// It has this fault first.
    Faulted(DocFault),
}

/// Why a document is refused.
#[derive(Drop)]
pub enum DocumentRefusal {
    /// It is not read as a tree.
    File(FileRefusal),
    /// It has too many nodes for the active patterns.
    TooManyPairs,
    /// It is not read as a report: it has this fault first, at the element of that location.
    Report { fault: SvrlFault, location: Text },
}

/// Why an edit script is refused.
#[derive(Clone, Copy)]
pub enum ScriptRefusal {
    /// It has more bytes than a script may have.
    TooLarge,
    /// It has this fault first.
    Faulted(ScriptFault),
}

/// Why a schema is refused.
#[derive(Drop)]
pub enum SchemaRefusal {
    /// The file of that name is not read as a tree.
    File { name: Text, refusal: FileRefusal },
    /// An include is refused; with the name of the file, or the `href` where that names none.
    Include { kind: IncludeKind, name: Text },
    /// It breaks a rule at the node of that location.
    Rule { fault: SchemaFault, location: Text },
    /// The file of watched expressions that stands in its place is refused.
    Watches(WatchesRefusal),
}

impl FileRefusal {
    /// Writes the reason, and the end of the line.
    #[tactic(auto, unfolding(crate::specs::Refusals::reason_text))]
    fn tell<E: Sink>(&self, err: &mut E) -> Result<(), Failed>
        ensures { Wrote (E.log err.old) (E.log err.new) (reason_text self.now ++ codes "\n") result }
    {
        match self {
            FileRefusal::TooLarge => write_all(err, b"TooLarge\n"),
            FileRefusal::Faulted(fault) => tell_fault(fault, err),
        }
    }

    /// Writes a text, the reason behind it, and the end of the line.
    #[tactic(auto, using(sch_io::proofs::Writes::writes))]
    fn tell_after<E: Sink>(&self, err: &mut E, text: &[u8]) -> Result<(), Failed>
        ensures { Wrote (E.log err.old) (E.log err.new) (text.now ++ (reason_text self.now ++ codes "\n")) result }
    {
        write_all(err, text)?;
        self.tell(err)
    }

    /// Writes a file's name, a text behind it, the reason, and the end of the line.
    #[tactic(auto, using(sch_io::proofs::Writes::writes))]
    fn tell_named<E: Sink>(&self, err: &mut E, name: &str, between: &[u8]) -> Result<(), Failed>
        ensures { Wrote (E.log err.old) (E.log err.new) (escaped name.now ++ (between.now ++ (reason_text self.now ++ codes "\n"))) result }
    {
        write_escaped(err, name)?;
        self.tell_after(err, between)
    }

    /// Writes a text, a file's name behind it, a second text, the reason, and the end of the line.
    #[tactic(auto, using(sch_io::proofs::Writes::writes))]
    fn tell_of<E: Sink>(
        &self,
        err: &mut E,
        text: &[u8],
        name: &str,
        between: &[u8],
    ) -> Result<(), Failed>
        ensures { Wrote (E.log err.old) (E.log err.new) (text.now ++ (escaped name.now ++ (between.now ++ (reason_text self.now ++ codes "\n")))) result }
    {
        write_all(err, text)?;
        self.tell_named(err, name, between)
    }
}

impl DocumentRefusal {
    /// Writes the line of a document that is refused for it.
    pub(crate) fn tell<E: Sink>(&self, err: &mut E) -> Result<(), Failed>
        ensures { Wrote (E.log err.old) (E.log err.new) (document_refused_line self.now) result }
    {
        match self {
            DocumentRefusal::File(refusal) => refusal.tell_after(err, b"sch: document refused: "),
            DocumentRefusal::TooManyPairs => write_all(
                err,
                b"sch: document refused: TooManyPairs\n",
            ),
            DocumentRefusal::Report { fault, location } => tell_report(fault, location, err),
        }
    }
}

impl ScriptRefusal {
    /// Writes the line of a script that is refused for it.
    pub(crate) fn tell<E: Sink>(&self, err: &mut E) -> Result<(), Failed>
        ensures { Wrote (E.log err.old) (E.log err.new) (script_refused_line self.now) result }
    {
        match self {
            ScriptRefusal::TooLarge => write_all(err, b"sch: script refused: TooLarge\n"),
            ScriptRefusal::Faulted(fault) => tell_script_fault(fault, err),
        }
    }
}

impl SchemaRefusal {
    /// Writes the line of a schema that is refused for it.
    pub(crate) fn tell<E: Sink>(&self, err: &mut E) -> Result<(), Failed>
        ensures { Wrote (E.log err.old) (E.log err.new) (schema_refused_line self.now) result }
    {
        match self {
            SchemaRefusal::File { name, refusal } => {
                refusal.tell_of(err, b"sch: schema refused: ", name.as_str(), b" ")
            }
            SchemaRefusal::Include { kind, name } => tell_include(kind, name, err),
            SchemaRefusal::Rule { fault, location } => tell_rule(fault, location, err),
            SchemaRefusal::Watches(refusal) => refusal.tell(err),
        }
    }
}

/// Writes the line of a schema with an include that is refused.
#[tactic(auto, using(sch_io::proofs::Writes::writes))]
fn tell_include<E: Sink>(kind: &IncludeKind, name: &Text, err: &mut E) -> Result<(), Failed>
    ensures { Wrote (E.log err.old) (E.log err.new) (include_line kind.now name.now) result }
{
    write_include(kind, err)?;
    write_line_rest(err, name.as_str())
}

/// Writes what is wrong with an include.
#[tactic(auto, unfolding(crate::specs::Refusals::include_text))]
fn write_include<E: Sink>(kind: &IncludeKind, err: &mut E) -> Result<(), Failed>
    ensures { Wrote (E.log err.old) (E.log err.new) (include_text kind.now) result }
{
    let kind = include_words(kind);
    write_pieces(err, &["sch: schema refused: include ", kind, " "])
}

/// Writes the line of a schema that breaks a rule at a location.
#[tactic(auto, using(sch_io::proofs::Writes::writes))]
fn tell_rule<E: Sink>(fault: &SchemaFault, location: &Text, err: &mut E) -> Result<(), Failed>
    ensures { Wrote (E.log err.old) (E.log err.new) (schema_rule_line location.now fault.now) result }
{
    write_rule(fault.rule, location, err)?;
    write_line_rest(err, fault.name.as_str())
}

/// Writes which rule is broken, and where.
#[tactic(auto, unfolding(crate::specs::Refusals::rule_text))]
fn write_rule<E: Sink>(rule: u32, location: &Text, err: &mut E) -> Result<(), Failed>
    ensures { Wrote (E.log err.old) (E.log err.new) (rule_text rule location.now) result }
{
    let mut buffer = Buffer::new();
    let rule = buffer.format(rule);
    let location = location.as_str();
    write_pieces(
        err,
        &["sch: schema refused: rule ", rule, " at ", location, ": "],
    )
}

/// Writes the line of a document that is not read as a report.
#[tactic(auto, using(sch_io::proofs::Writes::writes))]
fn tell_report<E: Sink>(fault: &SvrlFault, location: &Text, err: &mut E) -> Result<(), Failed>
    ensures { Wrote (E.log err.old) (E.log err.new) (report_line location.now fault.now) result }
{
    write_svrl_kind(&fault.kind, err)?;
    write_place(location, err)
}

/// Writes what a document lacks that is not read as a report.
#[tactic(auto, unfolding(crate::specs::Refusals::svrl_text))]
fn write_svrl_kind<E: Sink>(kind: &SvrlKind, err: &mut E) -> Result<(), Failed>
    ensures { Wrote (E.log err.old) (E.log err.new) (svrl_text kind.now) result }
{
    let word = svrl_word(kind);
    let name = svrl_name(kind);
    write_pieces(err, &["sch: document refused: svrl ", word, name])
}

/// Writes where that is, and the end of the line.
#[tactic(auto, unfolding(crate::specs::Refusals::place_text))]
fn write_place<E: Sink>(location: &Text, err: &mut E) -> Result<(), Failed>
    ensures { Wrote (E.log err.old) (E.log err.new) (place_text location.now) result }
{
    let location = location.as_str();
    write_pieces(err, &[" at ", location, "\n"])
}

/// Writes where and what a fault is, and the end of the line.
#[tactic(auto, unfolding(crate::specs::Refusals::fault_text))]
fn tell_fault<E: Sink>(fault: &DocFault, err: &mut E) -> Result<(), Failed>
    ensures { Wrote (E.log err.old) (E.log err.new) (fault_text fault.now ++ codes "\n") result }
{
    let mut buffer = Buffer::new();
    let line = buffer.format(fault.line);
    let kind = kind_words(&fault.kind);
    write_pieces(err, &["line ", line, " ", kind, "\n"])
}

/// Writes the line of a script with a fault.
#[tactic(auto, unfolding(crate::specs::Refusals::script_fault_line))]
fn tell_script_fault<E: Sink>(fault: &ScriptFault, err: &mut E) -> Result<(), Failed>
    ensures { Wrote (E.log err.old) (E.log err.new) (script_fault_line fault.now) result }
{
    let mut buffer = Buffer::new();
    let line = buffer.format(fault.line);
    let kind = script_words(fault.kind);
    write_pieces(err, &["sch: script refused: line ", line, " ", kind, "\n"])
}

/// The name of a rule that a command of a script can break.
fn script_words(kind: ScriptKind) -> &'static str
    ensures { result.now ≡ script_words kind }
{
    match kind {
        ScriptKind::BadChar => "BadChar",
        ScriptKind::BadWord => "BadWord",
        ScriptKind::BadPath => "BadPath",
        ScriptKind::BadNumber => "BadNumber",
        ScriptKind::BadName => "BadName",
        ScriptKind::BadPayload => "BadPayload",
    }
}

/// The name of a kind of fault.
fn kind_words(kind: &DocKind) -> &'static str
    ensures { result.now ≡ kind_words kind.now }
{
    match kind {
        DocKind::Pyx(kind) => pyx_words(kind),
        DocKind::NoPrefix => "NoPrefix",
        DocKind::SameAttribute => "SameAttribute",
        DocKind::BadDeclaration => "BadDeclaration",
        DocKind::BothQuotes => "BothQuotes",
        DocKind::TooManyNodes => "TooManyNodes",
        DocKind::TooDeep => "TooDeep",
    }
}

/// The name of a kind of fault of a line of PYX.
fn pyx_words(kind: &PyxKind) -> &'static str
    ensures { result.now ≡ pyx_words kind.now }
{
    match kind {
        PyxKind::NotUtf8 => "NotUtf8",
        PyxKind::BadChar => "BadChar",
        PyxKind::UnknownLine => "UnknownLine",
        PyxKind::EntityLine => "EntityLine",
        PyxKind::BadName => "BadName",
        PyxKind::AttributePlace => "AttributePlace",
        PyxKind::WrongEnd => "WrongEnd",
        PyxKind::TextOutside => "TextOutside",
        PyxKind::SecondRoot => "SecondRoot",
        PyxKind::NoRoot => "NoRoot",
        PyxKind::Unfinished => "Unfinished",
    }
}

/// The name of a kind of fault of an include.
fn include_words(kind: &IncludeKind) -> &'static str
    ensures { result.now ≡ include_words kind.now }
{
    match kind {
        IncludeKind::NoHref => "NoHref",
        IncludeKind::Scheme => "Scheme",
        IncludeKind::Fragment => "Fragment",
        IncludeKind::Cycle => "Cycle",
        IncludeKind::TooDeep => "TooDeep",
        IncludeKind::TooMany => "TooMany",
        IncludeKind::Missing => "Missing",
        IncludeKind::Failed => "Failed",
        IncludeKind::TooLarge => "TooLarge",
        IncludeKind::Doc(_) => "Doc",
        IncludeKind::TooManyNodes => "TooManyNodes",
        IncludeKind::TreeTooDeep => "TreeTooDeep",
        IncludeKind::TooMuchText => "TooMuchText",
    }
}

/// The name of a kind of fault of a report; a space stands behind it where it tells the name of an attribute.
fn svrl_word(kind: &SvrlKind) -> &str
    ensures { result.now ≡ svrl_word kind.now }
{
    match kind {
        SvrlKind::NotOutput => "NotOutput",
        SvrlKind::NoPattern => "NoPattern",
        SvrlKind::NoRule => "NoRule",
        SvrlKind::NoAttribute { .. } => "NoAttribute ",
    }
}

/// The name of the attribute that is missing, and nothing for another kind.
fn svrl_name(kind: &SvrlKind) -> &str
    ensures { result.now ≡ svrl_name kind.now }
{
    match kind {
        SvrlKind::NotOutput | SvrlKind::NoPattern | SvrlKind::NoRule => "",
        SvrlKind::NoAttribute { name } => name.as_str(),
    }
}
