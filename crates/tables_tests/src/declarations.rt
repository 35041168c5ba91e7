// Declarations and what they refer to.
use crate::building::*;
use crate::cases::*;
use host::{
    FileDep, FileDepName, NodeKind, ReferenceNamespace, SourceRange, SymbolDeclFlags,
    SymbolDeclKind, SymbolNodeDep,
};
use ids::{NameId, PATH_LIMIT, Path};
use std::alloc::Global;
use std::test::Fail;

fn range(range: SourceRange) -> Sketch {
    let mut s = PLAIN;
    s.decl.range = range;
    s
}

fn name(name: Option<NameId>) -> Sketch {
    let mut s = PLAIN;
    s.decl.name = name;
    s
}

// What the declaration is, with these flags.
fn flagged(kind: SymbolDeclKind, flags: SymbolDeclFlags) -> Sketch {
    let mut s = PLAIN;
    s.decl.kind = kind;
    s.decl.flags = flags;
    s
}

// A definition with so many references.
fn deps(count: usize) -> Sketch {
    kind(SymbolDeclKind::Definition(NodeKind::ClassDecl, count))
}

fn dep(dep: SymbolNodeDep) -> Sketch {
    let mut s = PLAIN;
    s.dep = dep;
    s
}

fn kind(kind: SymbolDeclKind) -> Sketch {
    flagged(kind, NO_FLAGS)
}

fn file(name: FileDepName, specifier: NameId) -> SymbolDeclKind {
    SymbolDeclKind::FileRef(FileDep { name, specifier })
}

#[test]
fn ranges_and_names(rt: HostRuntime) -> Result<(), Fail> {
    loaded(
        rt.alloc(),
        &[range(WHOLE), name(None), name(Some(LAST_NAME))],
    )?;
    refused(rt.alloc(), &[range(BACKWARD), name(Some(NO_NAME))])
}

#[test]
fn targets(rt: HostRuntime) -> Result<(), Fail> {
    let unknown = Path::from_names(&[LAST_NAME, NO_NAME])?;
    let known = Path::from_names(&[LAST_NAME; PATH_LIMIT])?;
    loaded(
        rt.alloc(),
        &[
            kind(SymbolDeclKind::Target(None)),
            kind(SymbolDeclKind::Target(Some(LAST_SYMBOL))),
            kind(SymbolDeclKind::QualifiedTarget(None, known)),
            kind(SymbolDeclKind::QualifiedTarget(Some(LAST_SYMBOL), known)),
        ],
    )?;
    refused(
        rt.alloc(),
        &[
            kind(SymbolDeclKind::Target(Some(NO_SYMBOL))),
            kind(SymbolDeclKind::QualifiedTarget(Some(NO_SYMBOL), known)),
            kind(SymbolDeclKind::QualifiedTarget(None, unknown)),
        ],
    )
}

#[test]
fn files(rt: HostRuntime) -> Result<(), Fail> {
    loaded(
        rt.alloc(),
        &[
            kind(file(FileDepName::Star, LAST_NAME)),
            kind(file(FileDepName::Name(LAST_NAME), LAST_NAME)),
        ],
    )?;
    refused(
        rt.alloc(),
        &[
            kind(file(FileDepName::Star, NO_NAME)),
            kind(file(FileDepName::Name(NO_NAME), LAST_NAME)),
        ],
    )
}

// For each flag, the flags of which only that one is set.
const FLAGS: [SymbolDeclFlags; 8] = [
    SymbolDeclFlags {
        overloads: true,
        ..NO_FLAGS
    },
    SymbolDeclFlags {
        body: true,
        ..NO_FLAGS
    },
    SymbolDeclFlags {
        export: true,
        ..NO_FLAGS
    },
    SymbolDeclFlags {
        private: true,
        ..NO_FLAGS
    },
    SymbolDeclFlags {
        member: true,
        ..NO_FLAGS
    },
    SymbolDeclFlags {
        function: true,
        ..NO_FLAGS
    },
    SymbolDeclFlags {
        class: true,
        ..NO_FLAGS
    },
    SymbolDeclFlags {
        scope: true,
        ..NO_FLAGS
    },
];

fn flags_stand(heap: Global, i: usize, flags: SymbolDeclFlags) -> Result<(), Fail> {
    let path = Path::single(LAST_NAME);
    let definition = SymbolDeclKind::Definition(NodeKind::Var, 0);
    let cases = [
        flagged(SymbolDeclKind::Target(None), flags),
        flagged(SymbolDeclKind::QualifiedTarget(None, path), flags),
        flagged(file(FileDepName::Star, LAST_NAME), flags),
    ];
    if !loads(heap, &flagged(definition, flags))? {
        return Err(Fail::new(format_args!("flag {i} on a definition")));
    }
    for (k, case) in cases.iter().enumerate() {
        if loads(heap, case)? {
            return Err(Fail::new(format_args!("flag {i}: case {k} of those that are refused")));
        }
    }
    Ok(())
}

#[test]
fn each_flag_stands_on_definitions_alone(rt: HostRuntime) -> Result<(), Fail> {
    for (i, flags) in FLAGS.iter().enumerate() {
        flags_stand(rt.alloc(), i, *flags)?;
    }
    Ok(())
}

#[test]
fn references_are_not_too_many(rt: HostRuntime) -> Result<(), Fail> {
    loaded(rt.alloc(), &[deps(0), deps(4096)])?;
    refused(rt.alloc(), &[deps(4097)])
}

#[test]
fn references_to_symbols(rt: HostRuntime) -> Result<(), Fail> {
    let by = ReferenceNamespace::Type;
    let known = Path::single(LAST_NAME);
    let unknown = Path::single(NO_NAME);
    loaded(
        rt.alloc(),
        &[
            dep(SymbolNodeDep::Id(None, by)),
            dep(SymbolNodeDep::Id(Some(LAST_SYMBOL), by)),
            dep(SymbolNodeDep::QualifiedId(None, known)),
            dep(SymbolNodeDep::QualifiedId(Some(LAST_SYMBOL), known)),
        ],
    )?;
    refused(
        rt.alloc(),
        &[
            dep(SymbolNodeDep::Id(Some(NO_SYMBOL), by)),
            dep(SymbolNodeDep::QualifiedId(Some(NO_SYMBOL), known)),
            dep(SymbolNodeDep::QualifiedId(None, unknown)),
        ],
    )
}

#[test]
fn import_types(rt: HostRuntime) -> Result<(), Fail> {
    let known = Some(Path::single(LAST_NAME));
    let unknown = Some(Path::single(NO_NAME));
    loaded(
        rt.alloc(),
        &[
            dep(SymbolNodeDep::ImportType(LAST_NAME, None)),
            dep(SymbolNodeDep::ImportType(LAST_NAME, known)),
        ],
    )?;
    refused(
        rt.alloc(),
        &[
            dep(SymbolNodeDep::ImportType(NO_NAME, None)),
            dep(SymbolNodeDep::ImportType(NO_NAME, known)),
            dep(SymbolNodeDep::ImportType(LAST_NAME, unknown)),
        ],
    )
}
