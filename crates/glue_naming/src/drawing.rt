//! Names drawn in turn, and the maps that they fill.
ghost use Rattle.std.specs.Prelude.{◌≡◌, [], length, true, false, IfOk};
ghost use Rattle.std.specs.FinSet as set;
ghost use Rattle.glue_words.specs.Ident.{is_ident, to_ident};
ghost use Rattle.glue_scope.specs.Scope.{AreDrawn, IsFirstFree};
ghost use Rattle.glue_shared.specs.NameMap.{no_names};
ghost use Rattle.glue_naming.specs.Drawing as spec;

use crate::named::{Wanted, WantedName, put_name};
use glue_scope::Names;
use glue_shared::NameMap;
use std::alloc::{AllocError, Global};
use values::{Duplicate, Seq, Text};

// Draws a name: one that is an identifier, and free, as it is.
#[tactic(auto, using(crate::proofs::Kept::name_kept))]
fn draw<N: Names>(scope: &mut N, name: &str) -> Result<Text, AllocError>
    ensures first { IfOk result (λ answer. IsFirstFree (N.bound scope.old) (to_ident name.now) answer) }
    ensures kept { IfOk result (λ answer. is_ident name.now ≡ true → set.contains (N.bound scope.old) name.now ≡ false → answer ≡ name.now) }
    ensures binds { IfOk result (λ answer. N.bound scope.new ≡ set.insert (N.bound scope.old) answer) }
{
    Ok(Text::new(scope.generate(name)?))
}

// Draws the wanted name.
fn draw_wanted<N: Names>(
    alloc: Global,
    scope: &mut N,
    last: &Text,
    wanted: &WantedName,
) -> Result<Text, AllocError>
    ensures first { IfOk result (λ answer. IsFirstFree (N.bound scope.old) (to_ident (spec.name_wanted last.now wanted.now)) answer) }
    ensures kept { IfOk result (λ answer. is_ident (spec.name_wanted last.now wanted.now) ≡ true → set.contains (N.bound scope.old) (spec.name_wanted last.now wanted.now) ≡ false → answer ≡ spec.name_wanted last.now wanted.now) }
    ensures binds { IfOk result (λ answer. N.bound scope.new ≡ set.insert (N.bound scope.old) answer) }
{
    match wanted {
        WantedName::Plain(name) => draw(scope, name.as_str()),
        WantedName::After(end) => {
            let mut name = last.copy(alloc)?;
            name.push_str(end.as_str())?;
            draw(scope, name.as_str())
        }
    }
}

// Draws the wanted names in turn.
fn draw_list<N: Names>(
    alloc: Global,
    scope: &mut N,
    list: &[Wanted],
) -> Result<Seq<Text>, AllocError>
    ensures length { IfOk result (λ names. length names ≡ length list.now) }
    ensures drawn { IfOk result (λ names. AreDrawn (N.bound scope.old) (spec.turn_names [] list.now names) names) }
    ensures kept { IfOk result (λ names. spec.AreKept (N.bound scope.old) (spec.turn_names [] list.now names) names) }
{
    let mut names = Seq::new(alloc);
    let mut last = Text::from_str(alloc, "")?;
    for wanted in list {
        last = draw_wanted(alloc, scope, &last, &wanted.name)?;
        names.push(last.copy(alloc)?)?;
    }
    Ok(names)
}

// The maps of the things' names.
fn fill(alloc: Global, list: &[Wanted], names: &[Text]) -> Result<NameMap, AllocError>
    requires alike { length names.now ≡ length list.now }
    ensures filled { IfOk result (λ map. map ≡ spec.map_of no_names list.now names.now) }
{
    let mut map = NameMap::new(alloc);
    for place in 0..list.len() {
        let name = names[place].copy(alloc)?;
        put_name(alloc, &mut map, &list[place].thing, name)?;
    }
    Ok(map)
}

/// Draws a name for each of these things in turn. Want of memory is the only error.
pub fn name_all<N: Names>(alloc: Global, scope: N, list: &[Wanted]) -> Result<NameMap, AllocError>
    ensures drawn { IfOk result (λ map. spec.IsDrawnMap (N.bound scope) list.now map) }
    ensures good { IfOk result (λ map. spec.AreGood (N.bound scope) list.now map) }
{
    let mut scope = scope;
    let names = draw_list(alloc, &mut scope, list)?;
    fill(alloc, list, names.as_slice())
}
