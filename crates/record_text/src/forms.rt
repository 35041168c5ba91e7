// The words of a line become an item, one function for each form of a line. A form takes its words one by one, in their
// order on the line: a struct of some of them would be built at one place and taken apart at the next.
ghost use Rattle.std.specs.Prelude.{◌≡◌, [], ◌∷◌, codes};
ghost use Rattle.record_text.specs.declared.items.Item.TheVariants.{Part};
ghost use Rattle.record_text.specs.declared.items.ModulePart.TheVariants.{Inner};
ghost use Rattle.record_text.specs.declared.items.SymbolPart.TheVariants.{Declares};
ghost use Rattle.record_text.specs.declared.texts.Texts.{Texts};
ghost use Rattle.record_text.specs.Forms.{Formed, HeadRead};

use crate::faults::{Expected, Unread};
use crate::fields::{
    file_name, module, module_kind, module_or_none, name, name_or_none, namespace, package,
    package_or_none, path, path_or_none, range, symbol, symbol_or_none,
};
use crate::flagging::flags;
use crate::items::{
    Declaration, DeclarationHead, DeclarationKind, Item, ModuleHead, ModulePart, SymbolPart,
};
use crate::nodes::node_kind;
use crate::texts::Texts;
use host::{Dependency, Export, FileDep, ReExportAll, SymbolNodeDep};
use std::alloc::Global;

// A package without an export table. It and the next differ in the words that a line has, and each contract says its own.
pub(crate) fn package_line(texts: &Texts, name: &str) -> Result<Item, Unread>
    ensures { Formed texts.now (codes "package" ∷ name.now ∷ []) texts.now result }
{
    Ok(Item::Package(package(&texts.packages, name, 1)?, false))
}

// A package with an export table.
pub(crate) fn package_exports(texts: &Texts, name: &str, last: &str) -> Result<Item, Unread>
    ensures { Formed texts.now (codes "package" ∷ name.now ∷ last.now ∷ []) texts.now result }
{
    match last {
        "exports" => Ok(Item::Package(package(&texts.packages, name, 1)?, true)),
        _ => Err(Unread::Of((Expected::PackageWords, 2))),
    }
}

pub(crate) fn entry(texts: &Texts, target: &str) -> Result<Item, Unread>
    ensures { Formed texts.now (codes "entry" ∷ target.now ∷ []) texts.now result }
{
    Ok(Item::Entry(module(&texts.modules, target, 1)?))
}

pub(crate) fn module_line(
    texts: &Texts,
    name: &str,
    kind: &str,
    owner: &str,
    types: &str,
) -> Result<Item, Unread>
    ensures { Formed texts.now (codes "module" ∷ name.now ∷ kind.now ∷ owner.now ∷ types.now ∷ []) texts.now result }
{
    let number = module(&texts.modules, name, 1)?;
    let kind = module_kind(kind, 2)?;
    let package = package_or_none(&texts.packages, owner, 3)?;
    let types = module_or_none(&texts.modules, types, 4)?;
    let head = ModuleHead {
        kind,
        package,
        types,
    };
    Ok(Item::Module(number, head))
}

pub(crate) fn dependency(texts: &mut Texts, specifier: &str, target: &str) -> Result<Item, Unread>
    ensures { Formed texts.old (codes "dependency" ∷ specifier.now ∷ target.now ∷ []) texts.new result }
{
    let specifier = name(&mut texts.names, specifier)?;
    let target = module_or_none(&texts.modules, target, 2)?;
    let dependency = Dependency { specifier, target };
    Ok(Item::Part(ModulePart::Depends(dependency)))
}

pub(crate) fn export_all(
    texts: &mut Texts,
    start: &str,
    end: &str,
    specifier: &str,
) -> Result<Item, Unread>
    ensures { Formed texts.old (codes "export-all" ∷ start.now ∷ end.now ∷ specifier.now ∷ []) texts.new result }
{
    let range = range(start, end)?;
    let specifier = name(&mut texts.names, specifier)?;
    let all = ReExportAll { range, specifier };
    Ok(Item::Part(ModulePart::ExportsAll(all)))
}

pub(crate) fn symbol_line(parent: &str) -> Result<Item, Unread>
    ensures { (t : Texts) → Formed t (codes "symbol" ∷ parent.now ∷ []) t result }
{
    let parent = symbol_or_none(parent, 1)?;
    Ok(Item::Part(ModulePart::Symbol(parent)))
}

fn inner(part: SymbolPart) -> Item
    ensures { result ≡ Part (Inner part) }
{
    Item::Part(ModulePart::Inner(part))
}

pub(crate) fn export(texts: &mut Texts, exported: &str, target: &str) -> Result<Item, Unread>
    ensures { Formed texts.old (codes "export" ∷ exported.now ∷ target.now ∷ []) texts.new result }
{
    let name = name(&mut texts.names, exported)?;
    let symbol = symbol(target, 2)?;
    Ok(inner(SymbolPart::Exports(Export { name, symbol })))
}

pub(crate) fn member(target: &str) -> Result<Item, Unread>
    ensures { (t : Texts) → Formed t (codes "member" ∷ target.now ∷ []) t result }
{
    Ok(inner(SymbolPart::Member(symbol(target, 1)?)))
}

// The range and the name that each declaration begins with.
fn head(texts: &mut Texts, start: &str, end: &str, name: &str) -> Result<DeclarationHead, Unread>
    ensures { HeadRead texts.old start.now end.now name.now texts.new result }
{
    let range = range(start, end)?;
    let name = name_or_none(&mut texts.names, name)?;
    Ok(DeclarationHead { range, name })
}

fn declared(head: DeclarationHead, kind: DeclarationKind) -> Item
    ensures { result ≡ Part (Inner (Declares (record { head = head; kind = kind }))) }
{
    inner(SymbolPart::Declares(Declaration { head, kind }))
}

pub(crate) fn alias(
    texts: &mut Texts,
    start: &str,
    end: &str,
    name: &str,
    target: &str,
) -> Result<Item, Unread>
    ensures { Formed texts.old (codes "alias" ∷ start.now ∷ end.now ∷ name.now ∷ target.now ∷ []) texts.new result }
{
    let head = head(texts, start, end, name)?;
    let target = symbol_or_none(target, 4)?;
    Ok(declared(head, DeclarationKind::Alias(target)))
}

pub(crate) fn qualified_alias(
    heap: Global,
    texts: &mut Texts,
    start: &str,
    end: &str,
    name: &str,
    target: &str,
    below: &str,
) -> Result<Item, Unread>
    ensures { Formed texts.old (codes "qualified-alias" ∷ start.now ∷ end.now ∷ name.now ∷ target.now ∷ below.now ∷ []) texts.new result }
{
    let head = head(texts, start, end, name)?;
    let target = symbol_or_none(target, 4)?;
    let path = path(heap, &mut texts.names, below, 5)?;
    Ok(declared(head, DeclarationKind::QualifiedAlias(target, path)))
}

pub(crate) fn file_ref(
    texts: &mut Texts,
    start: &str,
    end: &str,
    own: &str,
    specifier: &str,
    what: &str,
) -> Result<Item, Unread>
    ensures { Formed texts.old (codes "file-ref" ∷ start.now ∷ end.now ∷ own.now ∷ specifier.now ∷ what.now ∷ []) texts.new result }
{
    let head = head(texts, start, end, own)?;
    let specifier = name(&mut texts.names, specifier)?;
    let name = file_name(&mut texts.names, what)?;
    Ok(declared(head, DeclarationKind::File(FileDep { name, specifier })))
}

pub(crate) fn definition(
    heap: Global,
    texts: &mut Texts,
    start: &str,
    end: &str,
    name: &str,
    kind: &str,
    raised: &str,
) -> Result<Item, Unread>
    ensures { Formed texts.old (codes "definition" ∷ start.now ∷ end.now ∷ name.now ∷ kind.now ∷ raised.now ∷ []) texts.new result }
{
    let head = head(texts, start, end, name)?;
    let kind = node_kind(kind, 4)?;
    let flags = flags(heap, raised, 5)?;
    Ok(declared(head, DeclarationKind::Defines(kind, flags)))
}

pub(crate) fn id(target: &str, how: &str) -> Result<Item, Unread>
    ensures { (t : Texts) → Formed t (codes "id" ∷ target.now ∷ how.now ∷ []) t result }
{
    let target = symbol_or_none(target, 1)?;
    let namespace = namespace(how, 2)?;
    Ok(inner(SymbolPart::Refers(SymbolNodeDep::Id(target, namespace))))
}

pub(crate) fn qualified_id(
    heap: Global,
    texts: &mut Texts,
    target: &str,
    below: &str,
) -> Result<Item, Unread>
    ensures { Formed texts.old (codes "qualified-id" ∷ target.now ∷ below.now ∷ []) texts.new result }
{
    let target = symbol_or_none(target, 1)?;
    let path = path(heap, &mut texts.names, below, 2)?;
    Ok(inner(SymbolPart::Refers(SymbolNodeDep::QualifiedId(target, path))))
}

pub(crate) fn import_type(
    heap: Global,
    texts: &mut Texts,
    specifier: &str,
    below: &str,
) -> Result<Item, Unread>
    ensures { Formed texts.old (codes "import-type" ∷ specifier.now ∷ below.now ∷ []) texts.new result }
{
    let specifier = name(&mut texts.names, specifier)?;
    let path = path_or_none(heap, &mut texts.names, below, 2)?;
    Ok(inner(SymbolPart::Refers(SymbolNodeDep::ImportType(specifier, path))))
}
