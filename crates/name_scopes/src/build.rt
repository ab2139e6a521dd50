//! A tree under way: events are taken one by one.

ghost use Rattle.std.specs.Prelude.{◌≡◌, ◌≢◌, ◌∷◌, ◌+◌, ◌≤◌, ◌<◌, [], ◌++◌, List, ℕ, true, false, None, Some, sum_by, length, drop, nat_lt, is_none, IfOk, OnOk, IfErr};
ghost use Rattle.std.specs.List.{list_all, list_any};
ghost use Rattle.std.specs.Option.{option_or, option_to_list};
ghost use Rattle.pyx_core.specs.declared.event.Event.{Event};
ghost use Rattle.pyx_core.specs.declared.event.Event.TheVariants as event_kind;
ghost use Rattle.pyx_core.specs.declared.mode.Mode.TheVariants.{Document};
ghost use Rattle.pyx_core.specs.Nesting.{Place, after, is_attr, is_name};
ghost use Rattle.doc_tree.specs.kind.Kind.TheVariants.{Element};
ghost use Rattle.doc_tree.specs.Table.{element, attribute, numbered, value_in, kind_of, kids_of, attrs_of, decls_of, parent_of};
ghost use Rattle.doc_tree.specs.Walks.{above, order, text_bytes};
ghost use Rattle.doc_tree.specs.Growth.{AttributeFits, FitsUnder, Grew, has_too_many};
ghost use Rattle.name_scopes.specs.Declarations.{declaration_of, declarations, plain_attrs};
ghost use Rattle.name_scopes.specs.Scoping.{declares_twice};
ghost use Rattle.name_scopes.specs.DocFaults.{Standing, attrs_fault, has_pair, lacks_prefix, moved, same_expanded, tag_fault, tag_nodes};
ghost use Rattle.name_scopes.specs.inner.Build.{AttributesAll, Begins, Comes, DeclaresAll, IsLeaf, IsNamed, IsNew, IsReady, IsTooDeep, Loads, Receives, TakesEvent, attribute_name, leaf_of, room_fault, value_bytes};

use crate::declarations::{declared_prefix, is_plain};
use crate::fault::{DocKind, EventError};
use crate::qnames::split;
use crate::recent_names::RecentNames;
use crate::scope::Scope;
use crate::tag::{check_attrs, known_uri};
use doc_tree::{
    AppendError, MAX_DEPTH, MAX_LIVE_NODES, MAX_LIVE_TEXT_BYTES, NameId, NewNode, NodeId, Tree,
    unlimited,
};
use pyx_core::{Attr, Event};
use std::alloc::{AllocError, Global};

/// A tree under way, the innermost open element, or the root where none is open, and the declarations in scope there.
#[derive(Drop)]
pub(crate) struct Loader {
    pub(crate) alloc: Global,
    pub(crate) tree: Tree,
    pub(crate) place: NodeId,
    pub(crate) scope: Scope,
    pub(crate) recent: RecentNames,
}

impl Loader {
    /// The root alone.
    pub(crate) fn new(alloc: Global) -> Result<Loader, AllocError>
        ensures { IfOk result IsNew }
    {
        let tree = Tree::new(alloc)?;
        let place = tree.root();
        Ok(Loader {
            alloc,
            tree,
            place,
            scope: Scope::new(alloc),
            recent: RecentNames::new(place),
        })
    }

    /// The tree that was built.
    pub(crate) fn into_tree(self) -> Tree
        ensures { result ≡ self.tree }
    {
        self.tree
    }

    /// Takes an event, or answers the first rule that it breaks.
    pub(crate) fn take(&mut self, event: &Event) -> Result<(), EventError>
        requires { IsReady self.old event.now }
        ensures { (taken : List Event) (place : Place) (standing : Standing) → Loads taken place standing self.old → Comes taken place event.now →
            TakesEvent taken place standing event.now self.new result }
    {
        match event {
            Event::Start { name, attrs } => self.start(name.as_str(), attrs.as_slice()),
            Event::End { name: _ } => {
                self.tree.laws();
                self.end();
                Ok(())
            }
            Event::Chars { text: _ } => self.leaf(event),
            Event::Pi { target: _, body: _ } => self.leaf(event),
            Event::Comment { text: _ } => self.leaf(event),
        }
    }

    /// Ends the innermost element.
    pub(crate) fn end(&mut self)
        requires { is_none (parent_of self.old.tree.nodes self.old.place) ≡ false }
        ensures tree { self.new.tree ≡ self.old.tree }
        ensures place { parent_of self.old.tree.nodes self.old.place ≡ Some self.new.place }
        ensures scope { self.new.scope ≡ drop (length (decls_of self.old.tree.nodes self.old.place)) self.old.scope }
    {
        let count = self.tree.decl_count(self.place);
        self.scope.forget(count);
        match self.tree.parent(self.place) {
            Some(parent) => self.place = parent,
            None => unreachable!(),
        }
    }

    /// Puts the node of an event that is no tag under the innermost element.
    fn leaf(&mut self, event: &Event) -> Result<(), EventError>
        requires leaf { IsLeaf event.now }
        requires ready { IsReady self.old event.now }
        ensures { (taken : List Event) (place : Place) (standing : Standing) → Loads taken place standing self.old → Comes taken place event.now →
            TakesEvent taken place standing event.now self.new result }
    {
        self.tree.laws();
        if self.tree.live_nodes() >= MAX_LIVE_NODES {
            return Err(EventError::Kind(DocKind::TooManyNodes));
        }
        append_leaf(&mut self.tree, self.place, event)?;
        Ok(())
    }

    /// Begins an element.
    fn start(&mut self, name: &str, attrs: &[Attr]) -> Result<(), EventError>
        requires { IsReady self.old (event_kind.Start name.now attrs.now) }
        ensures { (taken : List Event) (place : Place) (standing : Standing) → Loads taken place standing self.old → Comes taken place (event_kind.Start name.now attrs.now) →
            TakesEvent taken place standing (event_kind.Start name.now attrs.now) self.new result }
    {
        self.tree.laws();
        declare(&mut self.scope, attrs)?;
        let id = match self.recent.element(&mut self.tree, &self.scope, name)? {
            Some(id) => id,
            None => return Err(EventError::Kind(DocKind::NoPrefix)),
        };
        if let Some(kind) = self.check(attrs)? {
            return Err(EventError::Kind(kind));
        }
        self.begin(id, name, attrs)
    }

    /// Tests the attributes of a start tag, whose declarations are in scope, and whether there is room for its nodes.
    fn check(&self, attrs: &[Attr]) -> Result<Option<DocKind>, AllocError>
        ensures { IfOk result (λ found. found ≡ option_or (attrs_fault self.now.scope attrs.now)
            (room_fault (length (order self.now.tree.nodes) + tag_nodes attrs.now))) }
    {
        self.tree.laws();
        if let Some(kind) = check_attrs(self.alloc, &self.scope, attrs)? {
            return Ok(Some(kind));
        }
        let left = MAX_LIVE_NODES - self.tree.live_nodes();
        if count_plain(attrs) >= left as usize {
            return Ok(Some(DocKind::TooManyNodes));
        }
        Ok(None)
    }

    /// Puts the element of a start tag under the innermost one, with what it declares and its attributes; its name has
    /// this number.
    pub(crate) fn begin(&mut self, id: NameId, name: &str, attrs: &[Attr]) -> Result<(), EventError>
        requires receives { Receives self.old.tree.nodes self.old.place }
        requires numbered { IsNamed self.old.tree.names self.old.scope name.now id }
        requires named { is_name name.now ≡ true }
        requires all_named { list_all is_attr attrs.now ≡ true }
        requires good { tag_fault self.old.scope name.now attrs.now ≡ None }
        requires room { length (order self.old.tree.nodes) + tag_nodes attrs.now ≤ MAX_LIVE_NODES }
        requires little { text_bytes self.old.tree.nodes + sum_by value_bytes (plain_attrs attrs.now) ≤ MAX_LIVE_TEXT_BYTES }
        ensures begins { OnOk result (Begins self.old.tree.nodes self.new.tree.nodes self.old.place self.new.place self.old.scope name.now attrs.now) }
        ensures scope { self.new.scope ≡ self.old.scope }
        ensures shallow { OnOk result (nat_lt MAX_DEPTH (length (above self.old.tree.nodes self.old.place)) ≡ false) }
        ensures deep { IfErr result (IsTooDeep self.old.tree.nodes self.old.place) }
    {
        self.tree.laws();
        let element = append_element(&mut self.tree, self.place, id)?;
        self.recent.note(name, element);
        append_decls(&mut self.tree, element, attrs)?;
        append_attributes(
            &mut self.tree,
            &mut self.recent,
            element,
            &self.scope,
            attrs,
        )?;
        self.place = element;
        Ok(())
    }
}

/// Puts what attributes declare in scope.
pub(crate) fn declare(scope: &mut Scope, attrs: &[Attr]) -> Result<(), AllocError>
    ensures { OnOk result (scope.new ≡ declarations attrs.now ++ scope.old) }
{
    let mut left = attrs.len();
    while left > 0 {
        left -= 1;
        declare_one(scope, &attrs[left])?;
    }
    Ok(())
}

/// Puts what an attribute declares in scope.
fn declare_one(scope: &mut Scope, attr: &Attr) -> Result<(), AllocError>
    ensures { OnOk result (scope.new ≡ option_to_list (declaration_of attr.now) ++ scope.old) }
{
    match declared_prefix(attr) {
        Some(prefix) => scope.declare(prefix, attr.value.as_str()),
        None => Ok(()),
    }
}

/// Puts the node of an event that is no tag under a node.
pub(crate) fn append_leaf(
    tree: &mut Tree,
    parent: NodeId,
    event: &Event,
) -> Result<NodeId, AllocError>
    requires leaf { IsLeaf event.now }
    requires receives { Receives tree.old.nodes parent }
    requires fits { FitsUnder tree.old.nodes parent (leaf_of event.now) }
    requires room { has_too_many tree.old.nodes ≡ false }
    requires little { text_bytes tree.old.nodes + length (value_in (leaf_of event.now)) ≤ MAX_LIVE_TEXT_BYTES }
    ensures { IfOk result (λ n. Grew tree.old.nodes tree.new.nodes parent n (leaf_of event.now)) }
{
    let node = match event {
        Event::Chars { text } => NewNode::Text(text.as_str()),
        Event::Pi { target, body } => {
            let id = tree.name_id("", target.as_str(), "")?;
            NewNode::Pi(id, body.as_str())
        }
        Event::Comment { text } => NewNode::Comment(text.as_str()),
        Event::Start { name: _, attrs: _ } => unreachable!(),
        Event::End { name: _ } => unreachable!(),
    };
    let n = unlimited(tree.append_node(parent, node))?;
    Ok(n)
}

/// Puts an element under a node; its name has this number.
fn append_element(tree: &mut Tree, parent: NodeId, id: NameId) -> Result<NodeId, EventError>
    requires receives { Receives tree.old.nodes parent }
    requires numbered { id < length tree.old.names }
    requires room { has_too_many tree.old.nodes ≡ false }
    ensures grew { IfOk result (λ n. Grew tree.old.nodes tree.new.nodes parent n (element (numbered tree.old.names id) [])) }
    ensures shallow { OnOk result (nat_lt MAX_DEPTH (length (above tree.old.nodes parent)) ≡ false) }
    ensures deep { IfErr result (IsTooDeep tree.old.nodes parent) }
{
    tree.laws();
    match tree.append_node(parent, NewNode::Element(id)) {
        Ok(n) => Ok(n),
        Err(AppendError::TooDeep) => Err(EventError::Kind(DocKind::TooDeep)),
        Err(AppendError::Memory) => Err(EventError::Memory),
        Err(AppendError::TooManyNodes) => unreachable!(),
        Err(AppendError::TooMuchText) => unreachable!(),
    }
}

/// Puts what attributes declare to an element that holds nothing yet.
fn append_decls(tree: &mut Tree, element: NodeId, attrs: &[Attr]) -> Result<(), AllocError>
    requires under { kind_of tree.old.nodes element ≡ Some Element }
    requires no_decl { decls_of tree.old.nodes element ≡ [] }
    requires no_kid { kids_of tree.old.nodes element ≡ [] }
    requires no_attribute { attrs_of tree.old.nodes element ≡ [] }
    requires once { declares_twice (declarations attrs.now) ≡ false }
    ensures { OnOk result (DeclaresAll tree.old.nodes tree.new.nodes element (declarations attrs.now)) }
{
    for attr in attrs {
        tree.laws();
        if let Some(prefix) = declared_prefix(attr) {
            tree.append_decl(element, prefix, attr.value.as_str())?;
        }
    }
    Ok(())
}

/// Puts the attributes that declare nothing to an element that holds nothing yet.
fn append_attributes(
    tree: &mut Tree,
    recent: &mut RecentNames,
    element: NodeId,
    scope: &Scope,
    attrs: &[Attr],
) -> Result<(), AllocError>
    requires receives { Receives tree.old.nodes element }
    requires under { kind_of tree.old.nodes element ≡ Some Element }
    requires no_kid { kids_of tree.old.nodes element ≡ [] }
    requires no_attribute { attrs_of tree.old.nodes element ≡ [] }
    requires all_named { list_all is_attr attrs.now ≡ true }
    requires known { list_any (lacks_prefix scope.now) (plain_attrs attrs.now) ≡ false }
    requires differ { has_pair (same_expanded scope.now) (plain_attrs attrs.now) ≡ false }
    requires room { length (order tree.old.nodes) + length (plain_attrs attrs.now) ≤ MAX_LIVE_NODES }
    requires little { text_bytes tree.old.nodes + sum_by value_bytes (plain_attrs attrs.now) ≤ MAX_LIVE_TEXT_BYTES }
    ensures { OnOk result (AttributesAll tree.old.nodes tree.new.nodes element scope.now attrs.now) }
{
    for attr in attrs {
        if is_plain(attr) {
            tree.laws();
            append_attribute(tree, recent, element, scope, attr)?;
        }
    }
    Ok(())
}

/// Puts an attribute to an element.
fn append_attribute(
    tree: &mut Tree,
    recent: &mut RecentNames,
    element: NodeId,
    scope: &Scope,
    attr: &Attr,
) -> Result<NodeId, AllocError>
    requires receives { Receives tree.old.nodes element }
    requires fits { AttributeFits tree.old.nodes element (attribute_name scope.now attr.now.name) }
    requires room { has_too_many tree.old.nodes ≡ false }
    requires little { text_bytes tree.old.nodes + length attr.now.value ≤ MAX_LIVE_TEXT_BYTES }
    ensures { IfOk result (λ n. Grew tree.old.nodes tree.new.nodes element n (attribute (attribute_name scope.now attr.now.name) attr.now.value)) }
{
    let name = attr.name.as_str();
    let parts = split(name);
    let id = recent.number(tree, name, parts, known_uri(scope, parts.prefix))?;
    let n = unlimited(tree.append_node(element, NewNode::Attribute(id, attr.value.as_str())))?;
    recent.note(name, n);
    Ok(n)
}

/// How many attributes declare nothing.
pub(crate) fn count_plain(attrs: &[Attr]) -> usize
    ensures { result ≡ length (plain_attrs attrs.now) }
{
    let mut count = 0usize;
    for attr in attrs {
        if is_plain(attr) {
            count += 1;
        }
    }
    count
}
