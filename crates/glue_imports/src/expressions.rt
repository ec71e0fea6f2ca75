//! The expression of an import.
ghost use Rattle.std.specs.Prelude.{◌≡◌, ◌++◌, ◌∷◌, [], IfOk, option_map};
ghost use Rattle.glue_imports.specs.Expressions as spec;
ghost use Rattle.glue_imports.specs.Given as given_specs;
ghost use Rattle.glue_imports.specs.Intrinsics as table;
ghost use Rattle.glue_imports.specs.Preludes as preludes;
ghost use Rattle.glue_imports.specs.declared.part.Part.TheVariants as p;

use crate::given::{Given, item_expression};
use crate::intrinsic::{has_parts, intrinsic_parts, loaded_name};
use crate::part::{Expression, Part};
use crate::prelude::{
    cast, has_link, instance_of, intrinsic_prelude, joined, linked, plain, present,
};
use crate::roots::root;
use glue_shared::{
    AdapterJsImportKind, AuxImport, AuxValue, Intrinsic, JsImport, NameMap, Settings, Target,
};
use glue_words::{key, punct};
use std::alloc::{AllocError, Global};
use values::{Duplicate, Seq, Text};

/// What the expression of an import goes by, beside what is described of it.
#[derive(Clone, Copy)]
pub struct Basis<'a> {
    /// The settings of the call.
    pub settings: &'a Settings,
    /// The names that are drawn.
    pub names: &'a NameMap,
}

/// The value that an import names, with parts before and behind it.
pub(crate) fn around(
    alloc: Global,
    names: &NameMap,
    front: Seq<Part>,
    js: &JsImport,
    behind: Seq<Part>,
) -> Result<Seq<Part>, AllocError>
    ensures parts { IfOk result (λ parts. parts ≡ spec.around names.now front js.now behind) }
{
    joined(front, joined(root(alloc, names, js)?, behind)?)
}

// The same without parts before it.
fn before(
    alloc: Global,
    names: &NameMap,
    js: &JsImport,
    behind: Seq<Part>,
) -> Result<Seq<Part>, AllocError>
    ensures parts { IfOk result (λ parts. parts ≡ spec.around names.now [] js.now behind) }
{
    let none = Seq::new(alloc);
    around(alloc, names, none, js, behind)
}

// One part by itself.
fn one(alloc: Global, part: Part) -> Result<Seq<Part>, AllocError>
    ensures parts { IfOk result (λ parts. parts ≡ part ∷ []) }
{
    Ok(Seq::from_vec(vec![in alloc; part]?))
}

// Two parts.
fn two(alloc: Global, first: Part, second: Part) -> Result<Seq<Part>, AllocError>
    ensures parts { IfOk result (λ parts. parts ≡ first ∷ second ∷ []) }
{
    Ok(Seq::from_vec(vec![in alloc; first, second]?))
}

// ` = a` behind parts, where the operand stands as it is.
fn assign(parts: Seq<Part>, place: usize) -> Result<Seq<Part>, AllocError>
    ensures parts { IfOk result (λ all. all ≡ parts ++ spec.assigned place) }
{
    let mut parts = parts;
    parts.push(Part::Space)?;
    parts.push(Part::Punct(punct::ASSIGN))?;
    parts.push(Part::Space)?;
    parts.push(Part::Whole(place))?;
    Ok(parts)
}

// `[a]` behind parts.
fn index(parts: Seq<Part>, place: usize) -> Result<Seq<Part>, AllocError>
    ensures parts { IfOk result (λ all. all ≡ parts ++ spec.index place) }
{
    let mut parts = parts;
    parts.push(Part::Punct(punct::OPEN_BRACKET))?;
    parts.push(Part::Operand(place))?;
    parts.push(Part::Punct(punct::CLOSE_BRACKET))?;
    Ok(parts)
}

// A property of a value.
fn property(alloc: Global, name: &Text) -> Result<Part, AllocError>
    ensures part { IfOk result (λ part. part ≡ p.Property name.now) }
{
    Ok(Part::Property(name.copy(alloc)?))
}

// A value that is called, as a function, as a method of the first argument, or as a constructor.
fn called(
    alloc: Global,
    names: &NameMap,
    call: AdapterJsImportKind,
    spread: bool,
    js: &JsImport,
) -> Result<Seq<Part>, AllocError>
    ensures parts { IfOk result (λ parts. parts ≡ spec.called names.now call spread js.now) }
{
    match call {
        AdapterJsImportKind::Normal => {
            before(alloc, names, js, one(alloc, Part::Arguments(spread))?)
        }
        AdapterJsImportKind::Method => {
            let property = Part::Property(Text::from_str(alloc, "call")?);
            let behind = two(alloc, property, Part::Arguments(spread))?;
            before(alloc, names, js, behind)
        }
        AdapterJsImportKind::Constructor => {
            let front = two(alloc, Part::Key(key::NEW), Part::Space)?;
            around(
                alloc,
                names,
                front,
                js,
                one(alloc, Part::Arguments(spread))?,
            )
        }
    }
}

// `, "field").get.call(..)`, or `.set`
fn described_call(
    alloc: Global,
    field: &Text,
    which: &str,
    spread: bool,
) -> Result<Seq<Part>, AllocError>
    ensures parts { IfOk result (λ parts. parts ≡ spec.described_call field.now which.now spread) }
{
    let parts = vec![in alloc;
        Part::Punct(punct::COMMA),
        Part::Space,
        Part::Literal(field.copy(alloc)?),
        Part::Punct(punct::CLOSE_PAREN),
        Part::Property(Text::from_str(alloc, which)?),
        Part::Property(Text::from_str(alloc, "call")?),
        Part::Arguments(spread),
    ]?;
    Ok(Seq::from_vec(parts))
}

// `.prototype`, where a property is one of instances.
fn owner(alloc: Global, of_instances: bool) -> Result<Seq<Part>, AllocError>
    ensures parts { IfOk result (λ parts. parts ≡ spec.owner of_instances) }
{
    if of_instances {
        one(alloc, Part::Property(Text::from_str(alloc, "prototype")?))
    } else {
        Ok(Seq::new(alloc))
    }
}

// The accessor of a property, of instances or of the class itself, called as a method.
fn accessor(
    alloc: Global,
    names: &NameMap,
    js: &JsImport,
    of_instances: bool,
    call: Seq<Part>,
) -> Result<Seq<Part>, AllocError>
    ensures parts { IfOk result (λ parts. parts ≡ spec.accessor names.now js.now of_instances call) }
{
    let helper = Part::Name(Text::from_str(alloc, "GetOwnOrInheritedPropertyDescriptor")?);
    let front = two(alloc, helper, Part::Punct(punct::OPEN_PAREN))?;
    around(
        alloc,
        names,
        front,
        js,
        joined(owner(alloc, of_instances)?, call)?,
    )
}

// The values themselves, and accessors of properties.
fn value_parts(
    alloc: Global,
    names: &NameMap,
    call: AdapterJsImportKind,
    spread: bool,
    value: &AuxValue,
) -> Result<Seq<Part>, AllocError>
    ensures parts { IfOk result (λ parts. parts ≡ spec.value_parts names.now call spread value.now) }
{
    match value {
        AuxValue::Bare(js) => called(alloc, names, call, spread, js),
        AuxValue::Getter(js, field) => {
            let get = described_call(alloc, field, "get", spread)?;
            accessor(alloc, names, js, true, get)
        }
        AuxValue::ClassGetter(js, field) => {
            let get = described_call(alloc, field, "get", spread)?;
            accessor(alloc, names, js, false, get)
        }
        AuxValue::Setter(js, field) => {
            let set = described_call(alloc, field, "set", spread)?;
            accessor(alloc, names, js, true, set)
        }
        AuxValue::ClassSetter(js, field) => {
            let set = described_call(alloc, field, "set", spread)?;
            accessor(alloc, names, js, false, set)
        }
    }
}

// A static value, which may be absent.
fn static_parts(
    alloc: Global,
    names: &NameMap,
    js: &JsImport,
    optional: bool,
) -> Result<Seq<Part>, AllocError>
    ensures parts { IfOk result (λ parts. parts ≡ spec.static_parts names.now js.now optional) }
{
    if optional {
        present(alloc, names, &js.name, js.fields.as_slice())
    } else {
        root(alloc, names, js)
    }
}

// A property of the first operand.
fn own_property(alloc: Global, name: &Text) -> Result<Seq<Part>, AllocError>
    ensures parts { IfOk result (λ parts. parts ≡ p.Operand 0 ∷ p.Property name.now ∷ []) }
{
    two(alloc, Part::Operand(0), property(alloc, name)?)
}

// The method of the first operand, called with the others.
fn own_method(alloc: Global, spread: bool, name: &Text) -> Result<Seq<Part>, AllocError>
    ensures parts { IfOk result (λ parts. parts ≡ p.Operand 0 ∷ p.Property name.now ∷ p.OtherArguments spread ∷ []) }
{
    let mut parts = own_property(alloc, name)?;
    parts.push(Part::OtherArguments(spread))?;
    Ok(parts)
}

// The expression of what is named by a value and something of it.
fn of_value(
    alloc: Global,
    names: &NameMap,
    spread: bool,
    what: &AuxImport,
) -> Result<Option<Seq<Part>>, AllocError>
    ensures parts { IfOk result (λ parts. parts ≡ spec.of_value names.now spread what.now) }
{
    let parts = match what {
        AuxImport::ValueWithThis(js, name) => {
            let part = property(alloc, name)?;
            before(alloc, names, js, two(alloc, part, Part::Arguments(spread))?)?
        }
        AuxImport::StructuralClassGetter(js, name) => {
            before(alloc, names, js, one(alloc, property(alloc, name)?)?)?
        }
        AuxImport::StructuralClassSetter(js, name) => {
            let part = one(alloc, property(alloc, name)?)?;
            before(alloc, names, js, assign(part, 0)?)?
        }
        AuxImport::IndexingGetterOfClass(js) => {
            before(alloc, names, js, index(Seq::new(alloc), 0)?)?
        }
        AuxImport::IndexingSetterOfClass(js) => {
            before(alloc, names, js, assign(index(Seq::new(alloc), 0)?, 1)?)?
        }
        AuxImport::IndexingDeleterOfClass(js) => {
            let front = two(alloc, Part::Key(key::DELETE), Part::Space)?;
            around(alloc, names, front, js, index(Seq::new(alloc), 0)?)?
        }
        _ => return Ok(None),
    };
    Ok(Some(parts))
}

// The expression of what is something of the first operand.
fn of_operand(
    alloc: Global,
    spread: bool,
    what: &AuxImport,
) -> Result<Option<Seq<Part>>, AllocError>
    ensures parts { IfOk result (λ parts. parts ≡ spec.of_operand spread what.now) }
{
    let parts = match what {
        AuxImport::StructuralMethod(name) => own_method(alloc, spread, name)?,
        AuxImport::StructuralGetter(name) => own_property(alloc, name)?,
        AuxImport::StructuralSetter(name) => assign(own_property(alloc, name)?, 1)?,
        AuxImport::IndexingGetterOfObject => index(one(alloc, Part::Operand(0))?, 1)?,
        AuxImport::IndexingSetterOfObject => {
            assign(index(one(alloc, Part::Operand(0))?, 1)?, 2)?
        }
        AuxImport::IndexingDeleterOfObject => {
            let mut front = two(alloc, Part::Key(key::DELETE), Part::Space)?;
            front.push(Part::Operand(0))?;
            index(front, 1)?
        }
        _ => return Ok(None),
    };
    Ok(Some(parts))
}

// The expression of an import that has no statements before it.
fn parts_of(
    alloc: Global,
    names: &NameMap,
    call: AdapterJsImportKind,
    spread: bool,
    what: &AuxImport,
) -> Result<Option<Seq<Part>>, AllocError>
    ensures parts { IfOk result (λ parts. parts ≡ spec.parts_of names.now call spread what.now) }
{
    match what {
        AuxImport::Value(value) => Ok(Some(value_parts(alloc, names, call, spread, value)?)),
        AuxImport::Static(js, optional) => Ok(Some(static_parts(alloc, names, js, *optional)?)),
        AuxImport::String(text) => Ok(Some(one(alloc, Part::Literal(text.copy(alloc)?))?)),
        AuxImport::ValueWithThis(_, _)
        | AuxImport::StructuralClassGetter(_, _)
        | AuxImport::StructuralClassSetter(_, _)
        | AuxImport::IndexingGetterOfClass(_)
        | AuxImport::IndexingSetterOfClass(_)
        | AuxImport::IndexingDeleterOfClass(_) => of_value(alloc, names, spread, what),
        _ => of_operand(alloc, spread, what),
    }
}

// The value for which the glue file has a name, by that name.
fn loaded_value(
    alloc: Global,
    target: &Target,
    intrinsic: Intrinsic,
) -> Result<Option<Expression>, AllocError>
    ensures expression { IfOk result (λ e. e ≡ option_map spec.loaded (table.loaded_name target.now intrinsic)) }
{
    match loaded_name(alloc, target, intrinsic)? {
        None => Ok(None),
        Some(name) => Ok(plain(alloc, Some(one(alloc, Part::Name(name))?))),
    }
}

// The expression of an intrinsic that gives an item of the module, or for whose value the glue file has a name.
fn item_or_loaded(
    alloc: Global,
    settings: &Settings,
    given: &Given<'_>,
    intrinsic: Intrinsic,
) -> Result<Option<Expression>, AllocError>
    ensures expression { IfOk result (λ e. e ≡ table.or_else (given_specs.item_expression settings.now.externref (given_specs.handed_in given.now) intrinsic) (option_map spec.loaded (table.loaded_name settings.now.target intrinsic))) }
{
    match item_expression(alloc, settings.externref, given, intrinsic)? {
        Some(expression) => Ok(Some(expression)),
        None => loaded_value(alloc, &settings.target, intrinsic),
    }
}

// The same, or of one that has statements before it.
fn prelude_or_other(
    alloc: Global,
    settings: &Settings,
    given: &Given<'_>,
    intrinsic: Intrinsic,
) -> Result<Option<Expression>, AllocError>
    ensures expression { IfOk result (λ e. e ≡ table.or_else (preludes.intrinsic_prelude settings.now.externref intrinsic) (table.or_else (given_specs.item_expression settings.now.externref (given_specs.handed_in given.now) intrinsic) (option_map spec.loaded (table.loaded_name settings.now.target intrinsic)))) }
{
    match intrinsic_prelude(alloc, settings.externref, intrinsic)? {
        Some(expression) => Ok(Some(expression)),
        None => item_or_loaded(alloc, settings, given, intrinsic),
    }
}

// The expression of an intrinsic.
fn intrinsic_expression(
    alloc: Global,
    settings: &Settings,
    given: &Given<'_>,
    bound: bool,
    intrinsic: Intrinsic,
) -> Result<Option<Expression>, AllocError>
    ensures expression { IfOk result (λ e. e ≡ spec.intrinsic_expression settings.now.target settings.now.externref (given_specs.handed_in given.now) bound intrinsic) }
{
    match plain(alloc, intrinsic_parts(alloc, bound, intrinsic)?) {
        Some(expression) => Ok(Some(expression)),
        None => prelude_or_other(alloc, settings, given, intrinsic),
    }
}

/// The expression of an import that is called in this way, its last argument spread or not, its answer bound to a local or not; none
/// where it isn't built. Want of memory is the only error.
pub fn expression(
    alloc: Global,
    basis: &Basis<'_>,
    given: &Given<'_>,
    call: AdapterJsImportKind,
    spread: bool,
    bound: bool,
    what: &AuxImport,
) -> Result<Option<Expression>, AllocError>
    ensures expression { IfOk result (λ e. e ≡ spec.expression basis.now.settings.now basis.now.names.now (given_specs.handed_in given.now) call spread bound what.now) }
{
    let settings = basis.settings;
    match what {
        AuxImport::Instanceof(js) => {
            let value = root(alloc, basis.names, js)?;
            Ok(Some(instance_of(alloc, value)?))
        }
        AuxImport::Cast(comment) => Ok(Some(cast(alloc, bound, comment)?)),
        AuxImport::LinkTo(path, content) => {
            let split = settings.split_linked_modules;
            linked(alloc, split, &settings.target, path, content)
        }
        AuxImport::Intrinsic(intrinsic) => {
            intrinsic_expression(alloc, settings, given, bound, *intrinsic)
        }
        _ => Ok(plain(alloc, parts_of(alloc, basis.names, call, spread, what)?)),
    }
}

/// Whether an import has an expression, whatever names are drawn and however it is called.
pub fn has_expression(settings: &Settings, what: &AuxImport) -> bool
    ensures test { result ≡ spec.has_expression settings.now what.now }
{
    match what {
        AuxImport::LinkTo(_, content) => {
            has_link(settings.split_linked_modules, &settings.target, content)
        }
        AuxImport::Intrinsic(intrinsic) => {
            has_parts(&settings.target, settings.externref, *intrinsic)
        }
        AuxImport::WrapInExportedClass(_) | AuxImport::UnwrapExportedClass(_) => false,
        _ => true,
    }
}
