// Words become the fields of records. A word comes with its place on its line, where the keyword has place 0. The two go
// side by side: the form of a line says the place as a numeral, and a fault takes the place alone.
ghost use Rattle.std.specs.Prelude.{◌≡◌};
ghost use Rattle.words.specs.Interned.{texts};
ghost use Rattle.record_text.specs.Fields as field;

use crate::faults::{Expected, Unread};
use host::{FileDepName, ModuleKind, ReferenceNamespace, SourceRange};
use ids::{ModuleId, NameId, PackageId, Path, SymbolId};
use std::alloc::Global;
use words::{Names, PathFault, read_path};

// Nothing where the word is a dash, and else what is read of it.
fn or_none<T, F: FnMut(&str) -> Result<T, Unread>>(
    word: &str,
    read: &mut F,
) -> Result<Option<T>, Unread>
    requires { F.IsAlwaysCallable read.old }
    ensures { field.DashOr (read.new ≡ read.old) (λ r. (w : _) × (w.now ≡ word.now) × F.step read.old w r read.new) word.now result }
{
    match word {
        "-" => Ok(None),
        _ => read(word).map(Some),
    }
}

// A number below 2^32.
fn number(word: &str, place: usize, expected: Expected) -> Result<u32, Unread>
    ensures { field.NumberRead word.now place result }
{
    word.parse::<u32>()
        .map_err(|_| Unread::Of((expected, place)))
}

// The start and the end of a range are the words at the places 1 and 2.
pub(crate) fn range(start: &str, end: &str) -> Result<SourceRange, Unread>
    ensures { field.RangeRead start.now end.now result }
{
    let start = number(start, 1, Expected::Offset)?;
    let end = number(end, 2, Expected::Offset)?;
    Ok(SourceRange { start, end })
}

fn symbol_number(word: &str, place: usize, expected: Expected) -> Result<SymbolId, Unread>
    ensures { field.SymbolRead word.now place result }
{
    number(word, place, expected).map(SymbolId)
}

pub(crate) fn symbol(word: &str, place: usize) -> Result<SymbolId, Unread>
    ensures { field.SymbolRead word.now place result }
{
    symbol_number(word, place, Expected::SymbolNumber)
}

pub(crate) fn symbol_or_none(word: &str, place: usize) -> Result<Option<SymbolId>, Unread>
    ensures { field.SymbolOrNoneRead word.now place result }
{
    or_none(
        word,
        &mut |word| symbol_number(word, place, Expected::SymbolNumberOrNone),
    )
}

// The number of a name, which is put last where it is new. The table has room for 2^32 - 1 names: memory ends first.
pub(crate) fn name(names: &mut Names, word: &str) -> Result<NameId, Unread>
    ensures { field.NameRead (texts names.old) word.now (texts names.new) result }
{
    names.intern(word).map(NameId).map_err(|_| Unread::NoMemory)
}

pub(crate) fn name_or_none(names: &mut Names, word: &str) -> Result<Option<NameId>, Unread>
    ensures { field.NameOrNoneRead (texts names.old) word.now (texts names.new) result }
{
    or_none(word, &mut |word| name(names, word))
}

// What is asked of a file.
pub(crate) fn file_name(names: &mut Names, word: &str) -> Result<FileDepName, Unread>
    ensures { field.FileNameRead (texts names.old) word.now (texts names.new) result }
{
    match word {
        "*" => Ok(FileDepName::Star),
        _ => name(names, word).map(FileDepName::Name),
    }
}

// What a fault of a path says of its word. No `From`: both sides are types of `words`, and the place comes beside them.
fn path_unread(fault: PathFault, place: usize) -> Unread
    ensures { field.PathUnread fault place result }
{
    match fault {
        PathFault::EmptyName | PathFault::TooManyNames(_) => Unread::Of((Expected::Path, place)),
        PathFault::TooManyDistinctNames | PathFault::NoMemory => Unread::NoMemory,
    }
}

pub(crate) fn path(
    heap: Global,
    names: &mut Names,
    word: &str,
    place: usize,
) -> Result<Path, Unread>
    ensures { field.PathRead (texts names.old) word.now (texts names.new) place result }
{
    read_path(heap, names, word).map_err(|fault| path_unread(fault, place))
}

pub(crate) fn path_or_none(
    heap: Global,
    names: &mut Names,
    word: &str,
    place: usize,
) -> Result<Option<Path>, Unread>
    ensures { field.PathOrNoneRead (texts names.old) word.now (texts names.new) place result }
{
    or_none(word, &mut |word| path(heap, names, word, place))
}

// The number of a module or a package of the text.
fn listed(table: &Names, word: &str, place: usize, expected: Expected) -> Result<u32, Unread>
    ensures { field.ListedRead (texts table.now) word.now place result }
{
    table.find(word).ok_or(Unread::Of((expected, place)))
}

fn module_number(
    modules: &Names,
    word: &str,
    place: usize,
    expected: Expected,
) -> Result<ModuleId, Unread>
    ensures { field.ModuleRead (texts modules.now) word.now place result }
{
    listed(modules, word, place, expected).map(ModuleId)
}

pub(crate) fn module(modules: &Names, word: &str, place: usize) -> Result<ModuleId, Unread>
    ensures { field.ModuleRead (texts modules.now) word.now place result }
{
    module_number(modules, word, place, Expected::Module)
}

pub(crate) fn module_or_none(
    modules: &Names,
    word: &str,
    place: usize,
) -> Result<Option<ModuleId>, Unread>
    ensures { field.ModuleOrNoneRead (texts modules.now) word.now place result }
{
    or_none(
        word,
        &mut |word| module_number(modules, word, place, Expected::ModuleOrNone),
    )
}

pub(crate) fn package(packages: &Names, word: &str, place: usize) -> Result<PackageId, Unread>
    ensures { field.PackageRead (texts packages.now) word.now place result }
{
    listed(packages, word, place, Expected::PackageOrNone).map(PackageId)
}

pub(crate) fn package_or_none(
    packages: &Names,
    word: &str,
    place: usize,
) -> Result<Option<PackageId>, Unread>
    ensures { field.PackageOrNoneRead (texts packages.now) word.now place result }
{
    or_none(word, &mut |word| package(packages, word, place))
}

// No `FromStr` in `host`, here and below: the words are those of this text form, which `host` knows nothing of.
pub(crate) fn module_kind(word: &str, place: usize) -> Result<ModuleKind, Unread>
    ensures { field.ModuleKindRead word.now place result }
{
    match word {
        "missing" => Ok(ModuleKind::Missing),
        "typed" => Ok(ModuleKind::Typed),
        "untyped" => Ok(ModuleKind::Untyped),
        "json" => Ok(ModuleKind::Json),
        "wasm" => Ok(ModuleKind::Wasm),
        "external" => Ok(ModuleKind::External),
        _ => Err(Unread::Of((Expected::ModuleKind, place))),
    }
}

pub(crate) fn namespace(word: &str, place: usize) -> Result<ReferenceNamespace, Unread>
    ensures { field.NamespaceRead word.now place result }
{
    match word {
        "value" => Ok(ReferenceNamespace::Value),
        "type" => Ok(ReferenceNamespace::Type),
        "both" => Ok(ReferenceNamespace::Both),
        _ => Err(Unread::Of((Expected::Namespace, place))),
    }
}
