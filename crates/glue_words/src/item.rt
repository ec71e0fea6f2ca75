//! Items: lists of words, each with the role that it plays in the glue file.
ghost use Rattle.std.specs.Prelude.{◌≡◌, ◌↔◌, IsTrue, IfOk};

use crate::word::Word;
use std::alloc::{AllocError, Global};
use values::{Duplicate, Seq, Text};

/// What an item declares or publishes.
#[derive(Debug, PartialEq, Eq, PartialOrd, Ord, Hash, Drop)]
pub enum Thing {
    /// An adapter, by its id.
    Adapter(u32),
    /// A class, by its qualified name.
    Class(Text),
    /// An enum, by its qualified name.
    Enum(Text),
    /// The import that a re-export names.
    Imported(Text),
    /// The function that resets the module's state.
    Reset,
    /// A namespace's own object, by the namespace's path.
    Group(Seq<Text>),
}

/// What an item is for.
#[derive(Debug, PartialEq, Eq, Drop)]
pub enum Role {
    /// An import of a JavaScript module.
    Import,
    /// The import of a module for WebAssembly imports that no adapter gives, by its number from 1 up.
    Foreign(u32),
    /// A piece that is the same for each module.
    Fixed,
    /// The definition of a WebAssembly import, by the import's place in the module.
    Define(u32),
    /// The declaration of a thing.
    Declare(Thing),
    /// The export of a thing under a path of one name: the path, the thing, and the name that it is bound to.
    Publish(Seq<Text>, Thing, Text),
    /// The object of a namespace, by the namespace's path.
    Namespace(Seq<Text>),
    /// The assignment of a thing to a longer path: the path, the thing, and the name that it is bound to.
    Assign(Seq<Text>, Thing, Text),
    /// A function that other items call, by the name that it is bound to.
    Helper(Text),
    /// Another part of the file's body.
    Body,
    /// What loads the WebAssembly module.
    Loading,
}

/// A piece of the glue file.
#[derive(Debug, PartialEq, Eq, Drop)]
pub struct Item {
    /// What the item is for.
    pub role: Role,
    /// Its words, in the order in which they are printed.
    pub words: Seq<Word>,
}

impl Duplicate for Thing {
    fn copy(&self, alloc: Global) -> Result<Thing, AllocError> {
        match self {
            Thing::Adapter(id) => Ok(Thing::Adapter(*id)),
            Thing::Class(name) => Ok(Thing::Class(name.copy(alloc)?)),
            Thing::Enum(name) => Ok(Thing::Enum(name.copy(alloc)?)),
            Thing::Imported(name) => Ok(Thing::Imported(name.copy(alloc)?)),
            Thing::Reset => Ok(Thing::Reset),
            Thing::Group(path) => Ok(Thing::Group(path.copy(alloc)?)),
        }
    }
}

/// Copies of a path, of the thing that stands there, and of the name that it is bound to.
fn copy_place(
    path: &Seq<Text>,
    thing: &Thing,
    name: &Text,
    alloc: Global,
) -> Result<(Seq<Text>, Thing, Text), AllocError>
    ensures { IfOk result (λ place. place ≡ (path.now, thing.now, name.now)) }
{
    let path = path.copy(alloc)?;
    let name = name.copy(alloc)?;
    let thing = thing.copy(alloc)?;
    Ok((path, thing, name))
}

impl Duplicate for Role {
    fn copy(&self, alloc: Global) -> Result<Role, AllocError> {
        match self {
            Role::Import => Ok(Role::Import),
            Role::Foreign(number) => Ok(Role::Foreign(*number)),
            Role::Fixed => Ok(Role::Fixed),
            Role::Define(place) => Ok(Role::Define(*place)),
            Role::Declare(thing) => Ok(Role::Declare(thing.copy(alloc)?)),
            Role::Publish(path, thing, name) => {
                let (path, thing, name) = copy_place(path, thing, name, alloc)?;
                Ok(Role::Publish(path, thing, name))
            }
            Role::Namespace(path) => Ok(Role::Namespace(path.copy(alloc)?)),
            Role::Assign(path, thing, name) => {
                let (path, thing, name) = copy_place(path, thing, name, alloc)?;
                Ok(Role::Assign(path, thing, name))
            }
            Role::Helper(key) => Ok(Role::Helper(key.copy(alloc)?)),
            Role::Body => Ok(Role::Body),
            Role::Loading => Ok(Role::Loading),
        }
    }
}

impl Duplicate for Item {
    fn copy(&self, alloc: Global) -> Result<Item, AllocError> {
        let words = self.words.copy(alloc)?;
        let role = self.role.copy(alloc)?;
        Ok(Item { role, words })
    }
}
