// Items go to their places in the tables.
ghost use Rattle.std.specs.Prelude.{◌≡◌, map};
ghost use Rattle.std.specs.Fn.{FnOnceReturnsAtMut};
ghost use Rattle.table_rules.specs.Meaning.{decl_of, symbol_of, module_of, package_of};
ghost use Rattle.record_text.specs.declared.items.Item.TheVariants.{Package as OnePackage, Entry, Module as OneModule, Part};
ghost use Rattle.record_text.specs.Placing as spec;

use crate::draft::{Draft, Open};
use crate::faults::{Expected, Unplaced};
use crate::items::{Declaration, DeclarationKind, Item, ModuleHead, ModulePart, SymbolPart};
use host::{SymbolDeclFlags, SymbolNodeDep};
use ids::{ModuleId, PackageId, SymbolId};
use std::alloc::Global;
use table_rules::{DeclKindTable, DeclTable, ModuleTable, PackageTable, SymbolTable};

// Adds to the last of some items.
fn on_last<T: Drop, F: FnOnce(&mut T) -> Result<(), Unplaced>>(
    items: &mut Vec<T>,
    missing: Expected,
    add: F,
) -> Result<(), Unplaced>
    requires { F.IsAlwaysCallable add }
    ensures { spec.LastChanged (FnOnceReturnsAtMut F.FnOnce add) items.old.items items.new.items result }
{
    add(items.last_mut().ok_or(Unplaced::Of(missing))?)
}

fn add_reference(decl: &mut DeclTable, reference: SymbolNodeDep) -> Result<(), Unplaced>
    ensures { spec.Adds (spec.referring reference) (decl_of decl.old) (decl_of decl.new) result }
{
    let DeclKindTable::Definition(_, deps) = &mut decl.kind else {
        return Err(Unplaced::Of(Expected::DefinitionAbove));
    };
    deps.push(reference)?;
    Ok(())
}

// A declaration as its line has it.
fn begun(heap: Global, declaration: Declaration) -> DeclTable
    ensures { decl_of result ≡ spec.decl_begun declaration }
{
    let (flags, kind) = match declaration.kind {
        DeclarationKind::Alias(target) => (
            SymbolDeclFlags::default(),
            DeclKindTable::Target(target),
        ),
        DeclarationKind::QualifiedAlias(target, path) => {
            (
                SymbolDeclFlags::default(),
                DeclKindTable::QualifiedTarget(target, path),
            )
        }
        DeclarationKind::File(file) => (SymbolDeclFlags::default(), DeclKindTable::FileRef(file)),
        DeclarationKind::Defines(kind, flags) => {
            (flags, DeclKindTable::Definition(kind, Vec::new(heap)))
        }
    };
    DeclTable {
        range: declaration.head.range,
        name: declaration.head.name,
        flags,
        kind,
    }
}

fn add_to_symbol(heap: Global, symbol: &mut SymbolTable, part: SymbolPart) -> Result<(), Unplaced>
    ensures { spec.Adds (spec.in_symbol part) (symbol_of symbol.old) (symbol_of symbol.new) result }
{
    match part {
        SymbolPart::Exports(export) => symbol.exports.push(export)?,
        SymbolPart::Member(member) => symbol.members.push(member)?,
        SymbolPart::Declares(declaration) => symbol.decls.push(begun(heap, declaration))?,
        SymbolPart::Refers(reference) => on_last(
            &mut symbol.decls,
            Expected::DefinitionAbove,
            |decl| add_reference(decl, reference),
        )?,
    }
    Ok(())
}

// A symbol with nothing in it.
fn symbol_begun(heap: Global, parent: Option<SymbolId>) -> SymbolTable
    ensures { symbol_of result ≡ spec.symbol_begun parent }
{
    SymbolTable {
        parent,
        decls: Vec::new(heap),
        exports: Vec::new(heap),
        members: Vec::new(heap),
    }
}

fn add_to_module(heap: Global, module: &mut ModuleTable, part: ModulePart) -> Result<(), Unplaced>
    ensures { spec.Adds (spec.in_module part) (module_of «module».old) (module_of «module».new) result }
{
    match part {
        ModulePart::Depends(dependency) => module.dependencies.push(dependency)?,
        ModulePart::ExportsAll(all) => module.re_export_alls.push(all)?,
        ModulePart::Symbol(parent) => module.symbols.push(symbol_begun(heap, parent))?,
        ModulePart::Inner(part) => on_last(
            &mut module.symbols,
            Expected::SymbolAbove,
            |symbol| add_to_symbol(heap, symbol, part),
        )?,
    }
    Ok(())
}

// A function of its own, so that no proof names the branch of `place_part` that calls it.
fn add_to_last_module(
    heap: Global,
    modules: &mut Vec<ModuleTable>,
    part: ModulePart,
) -> Result<(), Unplaced>
    ensures { spec.Adds (spec.on_last (spec.in_module part)) (map module_of modules.old.items) (map module_of modules.new.items) result }
{
    on_last(
        modules,
        Expected::ModuleAbove,
        |module| add_to_module(heap, module, part),
    )
}

fn add_entry(package: &mut PackageTable, module: ModuleId) -> Result<(), Unplaced>
    ensures { spec.Adds (spec.in_package «module») (package_of «package».old) (package_of «package».new) result }
{
    let entries = package.entries.as_mut();
    entries
        .ok_or(Unplaced::Of(Expected::ExportTableAbove))?
        .push(module)?;
    Ok(())
}

// A package with no entry module.
fn package_begun(heap: Global, listed: bool) -> PackageTable
    ensures { package_of result ≡ spec.package_begun listed }
{
    PackageTable {
        entries: listed.then(|| Vec::new(heap)),
    }
}

// A module with nothing in it.
fn module_begun(heap: Global, head: ModuleHead) -> ModuleTable
    ensures { module_of result ≡ spec.module_begun head }
{
    ModuleTable {
        kind: head.kind,
        package: head.package,
        types: head.types,
        dependencies: Vec::new(heap),
        re_export_alls: Vec::new(heap),
        symbols: Vec::new(heap),
    }
}

// Adds an item, where its number is the next.
fn add_next<T: Drop>(
    items: &mut Vec<T>,
    number: u32,
    item: T,
    taken: Expected,
) -> Result<(), Unplaced>
    ensures { spec.NextAdded number item items.old.items items.new.items result }
{
    if number as usize != items.len() {
        return Err(Unplaced::Of(taken));
    }
    items.push(item)?;
    Ok(())
}

fn place_package(
    heap: Global,
    draft: &mut Draft,
    package: PackageId,
    listed: bool,
) -> Result<(), Unplaced>
    ensures { spec.Places (OnePackage «package» listed) draft.old draft.new result }
{
    let begun = package_begun(heap, listed);
    add_next(
        &mut draft.table.packages,
        package.0,
        begun,
        Expected::NewPackage,
    )?;
    draft.open = Some(Open::Package);
    Ok(())
}

fn place_module(
    heap: Global,
    draft: &mut Draft,
    module: ModuleId,
    head: ModuleHead,
) -> Result<(), Unplaced>
    ensures { spec.Places (OneModule «module» head) draft.old draft.new result }
{
    let begun = module_begun(heap, head);
    add_next(
        &mut draft.table.modules,
        module.0,
        begun,
        Expected::NewModule,
    )?;
    draft.open = Some(Open::Module);
    Ok(())
}

fn place_entry(draft: &mut Draft, module: ModuleId) -> Result<(), Unplaced>
    ensures { spec.Places (Entry «module») draft.old draft.new result }
{
    match draft.open {
        Some(Open::Package) => on_last(
            &mut draft.table.packages,
            Expected::ExportTableAbove,
            |package| add_entry(package, module),
        ),
        _ => Err(Unplaced::Of(Expected::ExportTableAbove)),
    }
}

fn place_part(heap: Global, draft: &mut Draft, part: ModulePart) -> Result<(), Unplaced>
    ensures { spec.Places (Part part) draft.old draft.new result }
{
    match draft.open {
        Some(Open::Module) => add_to_last_module(heap, &mut draft.table.modules, part),
        _ => Err(Unplaced::Of(Expected::ModuleAbove)),
    }
}

// Puts an item in its place.
pub(crate) fn place(heap: Global, draft: &mut Draft, item: Item) -> Result<(), Unplaced>
    ensures { spec.Places item draft.old draft.new result }
{
    match item {
        Item::Package(package, listed) => place_package(heap, draft, package, listed),
        Item::Entry(module) => place_entry(draft, module),
        Item::Module(module, head) => place_module(heap, draft, module, head),
        Item::Part(part) => place_part(heap, draft, part),
    }
}
