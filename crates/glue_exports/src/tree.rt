//! The export tree, and putting a definition into it.
ghost use Rattle.std.specs.Prelude.{◌≡◌, ◌++◌, ◌∷◌, [], OnOk, OnErr, IfOk, IfErr, true, false};
ghost use Rattle.std.specs.List.{list_any};
ghost use Rattle.std.specs.Map.{keys_of};
ghost use Rattle.glue_targets.specs.PublicTree as public;
ghost use Rattle.glue_exports.specs.Fronts.{is_run_through, AreKeys};
ghost use Rattle.glue_exports.specs.Tree as spec;

use crate::definition::ExportDefinition;
use crate::paths::{add_paths, fronts};
use std::alloc::{AllocError, Global};
use std::marker::Model;
use values::{Duplicate, Map, Seq, Text};

/// Why a definition isn't put into a tree.
#[derive(Debug, PartialEq, Eq, Drop)]
pub enum ExportFault {
    /// The definition of this name, without its namespace, can't stand beside another.
    Clash { name: Text },
    /// Memory ran out.
    OutOfMemory,
}

impl From<AllocError> for ExportFault {
    ghost use Rattle.std.specs.Prelude.{◌≡◌};
    ghost use Rattle.glue_exports.specs.declared.tree.ExportFault.TheVariants.{OutOfMemory};

    ghost from_gives = { λ _ e. e ≡ OutOfMemory };

    fn from(_: AllocError) -> Self {
        ExportFault::OutOfMemory
    }
}

/// Definitions by their paths. A contract sees the list of them, in the paths' order.
#[derive(Debug, Drop)]
pub struct ExportTree {
    definitions: Map<Seq<Text>, ExportDefinition>,
    // The paths that those of the definitions run through.
    fronts: Map<Seq<Text>, bool>,
    // Whether memory ran out while a definition was put in. No more is put in then.
    is_spent: bool,
}

impl Model for ExportTree {
    ghost use Rattle.std.specs.Prelude.{List};
    ghost use Rattle.glue_exports.specs.Tree.{Entry, AreParts};

    ghost Value = { List Entry };

    ghost view = { λ t. t.definitions };

    ghost invariant = { λ t. AreParts t.is_spent t.fronts t.definitions };
}

// Whether a definition that is no re-export stands at the path.
fn is_declared(definitions: &Map<Seq<Text>, ExportDefinition>, path: &Seq<Text>) -> bool
    ensures test { result ≡ spec.is_declared (spec.found definitions.now path.now) }
{
    match definitions.get(path) {
        None => false,
        Some(definition) => !definition.is_reexport(),
    }
}

// Whether one of these paths has a definition that is no re-export.
fn any_declared(definitions: &Map<Seq<Text>, ExportDefinition>, paths: &[Seq<Text>]) -> bool
    ensures test { result ≡ list_any (λ path. spec.is_declared (spec.found definitions.now path)) paths.now }
{
    paths.iter().any(|path| is_declared(definitions, path))
}

// Whether a definition can't stand at a path with these fronts. The set holds the paths that others run through.
fn clashes(
    definitions: &Map<Seq<Text>, ExportDefinition>,
    run_through: &Map<Seq<Text>, bool>,
    path: &Seq<Text>,
    fronts: &[Seq<Text>],
    definition: &ExportDefinition,
) -> bool
    requires counted { AreKeys run_through.now (is_run_through (keys_of definitions.now)) }
    requires fronts { fronts.now ≡ public.fronts path.now }
    ensures test { result ≡ spec.clashes definitions.now path.now definition.now }
{
    definitions.get(path).is_some()
        || !definition.is_reexport() && run_through.get(path).is_some()
        || any_declared(definitions, fronts)
}

impl ExportTree {
    /// No definitions.
    pub fn new(alloc: Global) -> ExportTree
        ensures empty { result ≡ [] }
    {
        ExportTree {
            definitions: Map::new(alloc),
            fronts: Map::new(alloc),
            is_spent: false,
        }
    }

    /// The definitions by their paths: a re-export with a namespace of its path stands right before what stands in that.
    pub fn definitions(&self) -> &Map<Seq<Text>, ExportDefinition>
        ensures definitions { result.now ≡ self.now }
        ensures tree { spec.IsTree self.now }
    {
        &self.definitions
    }

    // Puts a definition at a path, and answers whether it could stand there.
    fn define(
        &mut self,
        alloc: Global,
        path: Seq<Text>,
        definition: ExportDefinition,
    ) -> Result<bool, AllocError>
        requires rooted { spec.has_none path ≡ false }
        ensures ok { IfOk result (λ is_put. spec.IsPut self.old path definition is_put self.new) }
        ensures err { OnErr result (self.new ≡ self.old) }
    {
        if self.is_spent {
            return Err(AllocError);
        }
        let fronts = fronts(alloc, path.as_slice())?;
        if clashes(
            &self.definitions,
            &self.fronts,
            &path,
            fronts.as_slice(),
            &definition,
        ) {
            return Ok(false);
        }
        self.is_spent = true;
        add_paths(&mut self.fronts, fronts)?;
        self.definitions.insert(path, definition)?;
        self.is_spent = false;
        Ok(true)
    }
}

// The path of a name in a namespace.
fn path_of(alloc: Global, namespace: &[Text], name: &str) -> Result<Seq<Text>, AllocError>
    ensures path { IfOk result (λ path. path ≡ namespace.now ++ name.now ∷ []) }
{
    let mut path = Seq::new(alloc);
    for segment in namespace {
        path.push(segment.copy(alloc)?)?;
    }
    path.push(Text::from_str(alloc, name)?)?;
    Ok(path)
}

/// Puts a definition into a tree, at the path of its namespace and its name.
///
/// A re-export and a namespace may have one path, whichever comes first; any other overlap of paths is a clash, and changes
/// nothing. Want of memory changes no definition, but a tree may take no more behind it; a path of more than
/// [`MAX_SEGMENTS`](crate::MAX_SEGMENTS) segments, with the name as one of them, is answered by it.
pub fn define_export(
    alloc: Global,
    tree: &mut ExportTree,
    name: &str,
    path: &[Text],
    definition: ExportDefinition,
) -> Result<(), ExportFault>
    ensures ok { OnOk result (spec.IsPut tree.old (path.now ++ name.now ∷ []) definition true tree.new) }
    ensures err { OnErr result (tree.new ≡ tree.old) }
    ensures cause { IfErr result (spec.IsCause tree.old (path.now ++ name.now ∷ []) name.now definition) }
{
    let clashing = Text::from_str(alloc, name)?;
    let full = path_of(alloc, path, name)?;
    if tree.define(alloc, full, definition)? {
        Ok(())
    } else {
        Err(ExportFault::Clash { name: clashing })
    }
}
