//! The folders that paths name, and the paths that clash.
ghost use Rattle.std.specs.Prelude.{◌≡◌, ◌++◌, IfOk};
ghost use Rattle.std.specs.List.{list_any, flat_map};
ghost use Rattle.std.specs.Str.{bytes_eq};
ghost use Rattle.planned_paths.specs.Paths as spec;

use name_set::NameSet;
use std::alloc::{AllocError, Global};
use values::{Seq, Text};

// The folders that a path names, and then the path.
pub(crate) fn heads_of(alloc: Global, path: &str) -> Result<Seq<Text>, AllocError>
    ensures { IfOk result (λ heads. heads ≡ spec.heads path.now) }
{
    let mut heads = Seq::new(alloc);
    for (place, byte) in path.as_bytes().iter().enumerate() {
        if *byte == b'/' {
            heads.push(Text::from_str(alloc, &path[..place])?)?;
        }
    }
    heads.push(Text::from_str(alloc, path)?)?;
    Ok(heads)
}

// The set with these names too.
pub(crate) fn with_names(alloc: Global, set: NameSet, names: &[Text]) -> Result<NameSet, AllocError>
    ensures { IfOk result (λ all. all ≡ set ++ names.now) }
{
    let mut all = set;
    for name in names {
        all = all.with(alloc, name.as_str())?;
    }
    Ok(all)
}

// Whether one of these paths stands in a set.
fn has_one(before: &NameSet, own: &[Text]) -> bool
    ensures { result ≡ list_any (λ head. list_any (λ other. bytes_eq other head) before.now) own.now }
{
    own.iter().any(|head| before.has(head.as_str()))
}

// Whether a path clashes with one of those before it, whose heads stand in a set too.
pub(crate) fn is_clash(before: &NameSet, heads: &NameSet, path: &str, own: &[Text]) -> bool
    requires own { own.now ≡ spec.heads path.now }
    requires heads { heads.now ≡ flat_map spec.heads before.now }
    ensures { result ≡ list_any (spec.do_clash path.now) before.now }
{
    let is_head = heads.has(path);
    let has_head = has_one(before, own);
    is_head || has_head
}
