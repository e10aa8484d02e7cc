//! A known tree, and what can be added to it.
ghost use Rattle.std.specs.Prelude.{◌≡◌, ◌≤◌, ◌+◌, ◌||◌, true, not, is_some, ◌<◌, ◌++◌, [], ◌∷◌, insert, length, vec_len, vec_capacity, option_map, OnOk, OnErr, IfOk, IsOk, MatchOption};
ghost use Rattle.std.specs.List.{list_all};
ghost use Rattle.tokei_folders.specs.declared.nodes.Node.{Node};
ghost use Rattle.tokei_folders.specs.declared.nodes.PlacedNode.{PlacedNode};
ghost use Rattle.tokei_folders.specs.Answers.{entries_in, only_name, kind_of as kind_of_node, can_list as can_list_node};
ghost use Rattle.tokei_folders.specs.Tree.{Tree, node_at, is_file as file_stands, below, is_sound, is_whole_name};
ghost use Rattle.tokei_memory.specs.Additions.{placed, with_all, folders_to as folders_to_place, new_folder, is_below_file as below_file};
ghost use Rattle.tokei_memory.specs.Refusals.{changed, refusing, refused_at};

use crate::call::Call;
use std::alloc::{AllocError, Global};
use std::cmp::Ordering;
use std::marker::Model;
use tokei_folders::names::{compare, copied};
use tokei_folders::{Entry, Items, Kind, Node, PlacedNode, Text};

/// A known tree, which contracts see as its places in order. Its top is always there.
#[derive(Drop)]
pub struct ToldTree {
    top: Node,
    /// The places below the top.
    places: Vec<PlacedNode>,
}

impl Model for ToldTree {
    ghost use Rattle.std.specs.Prelude.{[], ◌∷◌};
    ghost use Rattle.tokei_folders.specs.Tree.{Tree};

    ghost Value = { Tree };

    ghost view = { λ t. record { names = []; node = t.top } ∷ t.places.items };
}

fn find<'a>(places: &'a [PlacedNode], names: &[Text]) -> Option<&'a Node>
    ensures { option_map (λ n. n.now) result ≡ node_at places.entry.now names.now }
{
    for place in places {
        if compare(place.names.as_slice(), names) == Ordering::Equal {
            return Some(&place.node);
        }
    }
    None
}

/// Where a place goes among others in order; `None` where something stands there.
fn position(places: &[PlacedNode], names: &[Text]) -> Option<usize>
    ensures { MatchOption result
        ((n : PlacedNode) → n.names ≡ names.now → placed places.now n ≡ places.now)
        (λ i. (i ≤ length places.now) × ((n : PlacedNode) → n.names ≡ names.now
        → placed places.now n ≡ insert places.now i n)) }
{
    for (i, place) in places.iter().enumerate() {
        match compare(names, place.names.as_slice()) {
            Ordering::Less => return Some(i),
            Ordering::Equal => return None,
            Ordering::Greater => {}
        }
    }
    Some(places.len())
}

/// Puts a place where it belongs, unless something stands there. It is refused where there is no
/// room for one more.
fn put(places: &mut Vec<PlacedNode>, node: PlacedNode) -> Result<(), AllocError>
    ensures placed { OnOk result ((top : PlacedNode) → top.names ≡ []
        → top ∷ places.new.items ≡ placed (top ∷ places.old.items) node) }
    ensures succeeds { vec_len places.old < vec_capacity places.old → IsOk result }
    ensures len { vec_len places.new ≤ vec_len places.old + 1 }
    ensures capacity { vec_capacity places.old ≤ vec_capacity places.new }
{
    if node.names.as_slice().is_empty() {
        return Ok(());
    }
    let Some(at) = position(places.as_slice(), node.names.as_slice()) else {
        return Ok(());
    };
    places.insert(at, node)?;
    Ok(())
}

/// Puts several places where they belong, or, where memory is refused, none.
fn put_all(places: &mut Vec<PlacedNode>, mut nodes: Items<PlacedNode>) -> Result<(), AllocError>
    ensures placed { OnOk result ((top : PlacedNode) → top.names ≡ []
        → top ∷ places.new.items ≡ with_all (top ∷ places.old.items) nodes) }
    ensures stays { OnErr result (places.new.items ≡ places.old.items) }
{
    places.reserve(nodes.as_slice().len())?;
    nodes.reverse();
    while let Some(node) = nodes.pop() {
        put(places, node)?;
    }
    Ok(())
}

/// The name by which a place is an entry of a folder, where it is one.
fn name_in<'a>(folder: &[Text], place: &'a [Text]) -> Option<&'a Text>
    ensures { option_map (λ n. n.now) result ≡ only_name (below folder.now place.entry.now) }
{
    match (folder.split_first(), place.split_first()) {
        (None, Some((name, []))) => Some(name),
        (Some((d, ds)), Some((n, ns))) => match d.as_str().cmp(n.as_str()) {
            Ordering::Equal => name_in(ds, ns),
            Ordering::Less | Ordering::Greater => None,
        },
        _ => None,
    }
}

pub fn kind_of(node: &Node) -> Kind
    ensures { result ≡ kind_of_node node.now }
{
    match node {
        Node::File { .. } => Kind::File,
        Node::Folder { .. } => Kind::Folder,
    }
}

/// The entries of a folder, in the order of the places.
fn entries_among(
    alloc: Global,
    folder: &[Text],
    places: &[PlacedNode],
) -> Result<Items<Entry>, AllocError>
    ensures { IfOk result (λ es. es ≡ entries_in folder.now places.now) }
{
    let mut entries = Items::new(alloc);
    for place in places {
        if let Some(name) = name_in(folder, place.names.as_slice()) {
            entries.push(Entry {
                name: Text::from_str(alloc, name.as_str())?,
                kind: kind_of(&place.node),
            })?;
        }
    }
    Ok(entries)
}

/// Marks a call as refused; a node of the other kind refuses it anyway.
fn refuse_call(node: &mut Node, call: Call)
    ensures { node.new ≡ refusing call node.old }
{
    match node {
        Node::File {
            refuses_read,
            refuses_head,
            ..
        } => match call {
            Call::List => {}
            Call::Read => *refuses_read = true,
            Call::Head => *refuses_head = true,
        },
        Node::Folder { refuses_list } => match call {
            Call::List => *refuses_list = true,
            Call::Read | Call::Head => {}
        },
    }
}

fn refuse_among(places: &mut [PlacedNode], names: &[Text], call: Call)
    ensures { places.new ≡ changed (refusing call) names.now places.old }
{
    for place in places.iter_mut() {
        if compare(place.names.as_slice(), names) == Ordering::Equal {
            refuse_call(&mut place.node, call);
            return;
        }
    }
}

/// The folders above a place, from the top down.
fn folders_to(alloc: Global, names: &[Text]) -> Result<Items<PlacedNode>, AllocError>
    ensures { IfOk result (λ ns. ns ≡ folders_to_place names.now) }
{
    let mut folders = Items::new(alloc);
    for i in 0..names.len() {
        folders.push(PlacedNode {
            names: copied(alloc, &names[..i])?,
            node: Node::Folder {
                refuses_list: false,
            },
        })?;
    }
    Ok(folders)
}

impl ToldTree {
    /// A tree of its top alone.
    pub fn new(alloc: Global) -> ToldTree
        ensures { result ≡ new_folder [] ∷ [] }
    {
        ToldTree {
            top: Node::Folder {
                refuses_list: false,
            },
            places: Vec::new(alloc),
        }
    }

    /// What stands at a place.
    pub fn node(&self, names: &[Text]) -> Option<&Node>
        ensures { option_map (λ n. n.now) result ≡ node_at self.entry.now names.now }
    {
        if names.is_empty() {
            return Some(&self.top);
        }
        find(self.places.as_slice(), names)
    }

    /// Adds a place, and those above it that are missing, as folders; where memory is refused the
    /// tree stays as it was.
    pub fn add(&mut self, alloc: Global, names: Items<Text>, node: Node) -> Result<(), AllocError>
        ensures ok { OnOk result (self.new ≡ with_all self.old
            (folders_to_place names ++ record { names = names; node = node } ∷ [])) }
        ensures err { OnErr result (self.new ≡ self.old) }
        ensures sound { is_sound self.old ≡ true → list_all is_whole_name names ≡ true
            → is_sound self.new ≡ true }
    {
        let mut nodes = folders_to(alloc, names.as_slice())?;
        nodes.push(PlacedNode { names, node })?;
        put_all(&mut self.places, nodes)
    }

    fn is_file(&self, names: &[Text]) -> bool
        ensures { result ≡ file_stands (node_at self.now names.now) }
    {
        match self.node(names) {
            Some(Node::File { .. }) => true,
            Some(Node::Folder { .. }) | None => false,
        }
    }

    /// Whether anything stands at a place.
    pub fn has(&self, names: &[Text]) -> bool
        ensures { result ≡ is_some (node_at self.now names.now) }
    {
        self.node(names).is_some()
    }

    /// Whether a folder stands at a place that can be listed.
    pub fn can_list(&self, names: &[Text]) -> bool
        ensures { result ≡ can_list_node (node_at self.now names.now) }
    {
        match self.node(names) {
            Some(Node::Folder { refuses_list }) => !*refuses_list,
            Some(Node::File { .. }) | None => false,
        }
    }

    /// Whether a file stands above a place.
    fn is_below_file(&self, names: &[Text]) -> bool
        ensures { result ≡ below_file self.now names.now }
    {
        for i in 0..names.len() {
            if self.is_file(&names[..i]) {
                return true;
            }
        }
        false
    }

    /// Whether a folder can be added at a place: there and above stands no file.
    pub fn takes_folder(&self, names: &[Text]) -> bool
        ensures { result
            ≡ not (below_file self.now names.now || file_stands (node_at self.now names.now)) }
    {
        !(self.is_below_file(names) || self.is_file(names))
    }

    /// Whether a file can be added at a place: nothing stands there, and no file above.
    pub fn takes_file(&self, names: &[Text]) -> bool
        ensures { result
            ≡ not (below_file self.now names.now || is_some (node_at self.now names.now)) }
    {
        !(self.is_below_file(names) || self.has(names))
    }

    /// The entries of a folder, in byte order of their names.
    pub fn entries(&self, alloc: Global, folder: &[Text]) -> Result<Items<Entry>, AllocError>
        ensures { IfOk result (λ es. es ≡ entries_in folder.now self.now) }
    {
        entries_among(alloc, folder, self.places.as_slice())
    }

    /// Marks a call at a place as refused, where anything stands there.
    pub fn refuse(&mut self, names: &[Text], call: Call)
        ensures { self.new ≡ refused_at call names.now self.old }
    {
        if names.is_empty() {
            refuse_call(&mut self.top, call);
        } else {
            refuse_among(&mut self.places, names, call);
        }
    }
}
