// What a module says of itself, and its lists.
use crate::building::*;
use crate::cases::*;
use host::{Dependency, ModuleInfo, ModuleKind, ReExportAll, SourceRange};
use ids::{ModuleId, NameId, PackageId};
use std::test::Fail;

fn package(package: Option<PackageId>) -> Sketch {
    let mut s = PLAIN;
    s.module.package = package;
    s
}

// A module of this kind with so many symbols and nothing else inside, that has its types there.
fn types(kind: ModuleKind, symbols: usize, types: Option<ModuleId>) -> Sketch {
    let mut s = lists(kind, 0, 0, symbols);
    s.module.types = types;
    s
}

// A module of this kind with so many dependencies, export-alls and symbols.
fn lists(kind: ModuleKind, dependencies: usize, re_export_alls: usize, symbols: usize) -> Sketch {
    let mut s = PLAIN;
    s.module = ModuleInfo {
        kind,
        package: None,
        types: None,
        dependencies,
        re_export_alls,
        symbols,
    };
    s
}

fn dependency(specifier: NameId, target: Option<ModuleId>) -> Sketch {
    let mut s = PLAIN;
    s.dependency = Dependency { specifier, target };
    s
}

fn re_export_all(range: SourceRange, specifier: NameId) -> Sketch {
    let mut s = PLAIN;
    s.re_export_all = ReExportAll { range, specifier };
    s
}

#[test]
fn packages_of_modules(rt: HostRuntime) -> Result<(), Fail> {
    loaded(rt.alloc(), &[package(None), package(Some(LAST_PACKAGE))])?;
    refused(rt.alloc(), &[package(Some(NO_PACKAGE))])
}

#[test]
fn types_stand_on_typed_modules(rt: HostRuntime) -> Result<(), Fail> {
    let last = Some(LAST_MODULE);
    loaded(
        rt.alloc(),
        &[
            types(ModuleKind::Typed, 1, last),
            types(ModuleKind::Untyped, 1, None),
            types(ModuleKind::Json, 1, None),
            types(ModuleKind::Wasm, 1, None),
            types(ModuleKind::Missing, 0, None),
            types(ModuleKind::External, 0, None),
        ],
    )?;
    refused(
        rt.alloc(),
        &[
            types(ModuleKind::Typed, 1, Some(NO_MODULE)),
            types(ModuleKind::Untyped, 1, last),
            types(ModuleKind::Json, 1, last),
            types(ModuleKind::Wasm, 1, last),
            types(ModuleKind::Missing, 0, last),
            types(ModuleKind::External, 0, last),
        ],
    )
}

#[test]
fn missing_and_external_modules_have_nothing_inside(rt: HostRuntime) -> Result<(), Fail> {
    loaded(
        rt.alloc(),
        &[
            lists(ModuleKind::Missing, 0, 0, 0),
            lists(ModuleKind::External, 0, 0, 0),
        ],
    )?;
    refused(
        rt.alloc(),
        &[
            lists(ModuleKind::Missing, 1, 0, 0),
            lists(ModuleKind::Missing, 0, 1, 0),
            lists(ModuleKind::Missing, 0, 0, 1),
            lists(ModuleKind::External, 1, 0, 0),
            lists(ModuleKind::External, 0, 1, 0),
            lists(ModuleKind::External, 0, 0, 1),
        ],
    )
}

#[test]
fn other_modules_have_a_symbol(rt: HostRuntime) -> Result<(), Fail> {
    loaded(
        rt.alloc(),
        &[
            lists(ModuleKind::Typed, 0, 0, 1),
            lists(ModuleKind::Untyped, 1, 1, 1),
            lists(ModuleKind::Json, 1, 1, 1),
            lists(ModuleKind::Wasm, 1, 1, 1),
        ],
    )?;
    refused(
        rt.alloc(),
        &[
            lists(ModuleKind::Typed, 0, 0, 0),
            lists(ModuleKind::Untyped, 1, 1, 0),
            lists(ModuleKind::Json, 1, 1, 0),
            lists(ModuleKind::Wasm, 1, 1, 0),
        ],
    )
}

#[test]
fn lists_of_a_module_are_not_too_long(rt: HostRuntime) -> Result<(), Fail> {
    loaded(rt.alloc(), &[lists(ModuleKind::Typed, 4096, 4096, 4096)])?;
    refused(
        rt.alloc(),
        &[
            lists(ModuleKind::Typed, 4097, 0, 1),
            lists(ModuleKind::Typed, 0, 4097, 1),
            lists(ModuleKind::Typed, 0, 0, 4097),
        ],
    )
}

#[test]
fn dependencies(rt: HostRuntime) -> Result<(), Fail> {
    // the second dependency has the specifier 1
    loaded(
        rt.alloc(),
        &[
            dependency(NameId(2), None),
            dependency(LAST_NAME, Some(LAST_MODULE)),
        ],
    )?;
    refused(
        rt.alloc(),
        &[
            dependency(NameId(1), None),
            dependency(NO_NAME, None),
            dependency(NameId(0), Some(NO_MODULE)),
        ],
    )
}

#[test]
fn re_export_alls(rt: HostRuntime) -> Result<(), Fail> {
    loaded(
        rt.alloc(),
        &[
            re_export_all(EMPTY, LAST_NAME),
            re_export_all(WHOLE, NameId(0)),
            lists(ModuleKind::Typed, 0, 2, 1),
        ],
    )?;
    refused(
        rt.alloc(),
        &[
            re_export_all(EMPTY, NO_NAME),
            re_export_all(BACKWARD, NameId(0)),
        ],
    )
}
