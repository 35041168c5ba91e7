// The lists and the parent of a symbol.
use crate::building::*;
use crate::cases::*;
use host::Export;
use ids::{NameId, SymbolId};
use std::test::Fail;

fn parent(parent: Option<SymbolId>) -> Sketch {
    let mut s = PLAIN;
    s.symbol.parent = parent;
    s
}

fn decls(decls: usize) -> Sketch {
    let mut s = PLAIN;
    s.symbol.decls = decls;
    s
}

fn exports(exports: usize) -> Sketch {
    let mut s = PLAIN;
    s.symbol.exports = exports;
    s
}

fn members(members: usize) -> Sketch {
    let mut s = PLAIN;
    s.symbol.members = members;
    s
}

fn export(name: NameId, symbol: SymbolId) -> Sketch {
    let mut s = PLAIN;
    s.export = Export { name, symbol };
    s
}

fn member(member: SymbolId) -> Sketch {
    let mut s = PLAIN;
    s.member = member;
    s
}

#[test]
fn parents_are_lower(rt: HostRuntime) -> Result<(), Fail> {
    loaded(rt.alloc(), &[parent(None), parent(Some(SymbolId(0)))])?;
    refused(
        rt.alloc(),
        &[parent(Some(LAST_SYMBOL)), parent(Some(NO_SYMBOL))],
    )
}

#[test]
fn lists_of_a_symbol_are_not_too_long(rt: HostRuntime) -> Result<(), Fail> {
    loaded(
        rt.alloc(),
        &[
            decls(1),
            decls(4096),
            exports(0),
            exports(4096),
            members(0),
            members(2),
            members(4096),
        ],
    )?;
    refused(
        rt.alloc(),
        &[decls(0), decls(4097), exports(4097), members(4097)],
    )
}

#[test]
fn exports_and_members(rt: HostRuntime) -> Result<(), Fail> {
    // the second export has the name 1
    loaded(
        rt.alloc(),
        &[
            export(NameId(2), SymbolId(0)),
            export(LAST_NAME, LAST_SYMBOL),
            member(LAST_SYMBOL),
        ],
    )?;
    refused(
        rt.alloc(),
        &[
            export(NameId(1), SymbolId(0)),
            export(NO_NAME, SymbolId(0)),
            export(NameId(0), NO_SYMBOL),
            member(NO_SYMBOL),
        ],
    )
}
