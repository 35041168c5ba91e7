// What loaded tables tell: of each list what stands at its last place, and nothing past it.
use crate::building::*;
use crate::cases::*;
use host::Host;
use ids::SymbolId;
use std::alloc::Global;
use std::test::Fail;
use tables::{Refusal, Tables};

fn tables_of(heap: Global, s: &Sketch) -> Result<Tables, Fail> {
    Ok(Tables::load(s.program(heap)?)?)
}

fn counts_told(t: &Tables) -> bool {
    t.names() == 4097 && t.packages() == 2 && t.modules() == 3
}

fn records_told(t: &Tables) -> bool {
    t.package(LAST_PACKAGE).is_some()
        && t.package(NO_PACKAGE).is_none()
        && t.module(LAST_MODULE).is_some()
        && t.module(NO_MODULE).is_none()
        && t.symbol(LAST_MODULE, LAST_SYMBOL).is_some()
        && t.symbol(LAST_MODULE, NO_SYMBOL).is_none()
        && t.decl(LAST_MODULE, LAST_SYMBOL, 0).is_some()
        && t.decl(LAST_MODULE, LAST_SYMBOL, 1).is_none()
}

fn places_told(t: &Tables) -> bool {
    t.dependency(LAST_MODULE, 1).is_some()
        && t.dependency(LAST_MODULE, 2).is_none()
        && t.re_export_all(LAST_MODULE, 0).is_some()
        && t.re_export_all(LAST_MODULE, 1).is_none()
        && t.export(LAST_MODULE, LAST_SYMBOL, 1).is_some()
        && t.export(LAST_MODULE, LAST_SYMBOL, 2).is_none()
        && t.member(LAST_MODULE, LAST_SYMBOL, 0) == Some(SymbolId(0))
        && t.member(LAST_MODULE, LAST_SYMBOL, 1) == None
        && t.dep(LAST_MODULE, LAST_SYMBOL, 0, 0).is_some()
        && t.dep(LAST_MODULE, LAST_SYMBOL, 0, 1).is_none()
}

fn module_told(t: &Tables) -> bool {
    t.module(LAST_MODULE).is_some_and(|module| {
        module.package == Some(LAST_PACKAGE)
            && module.types == None
            && module.dependencies == 2
            && module.re_export_alls == 1
            && module.symbols == 2
    })
}

fn symbol_told(t: &Tables) -> bool {
    t.symbol(LAST_MODULE, LAST_SYMBOL).is_some_and(|symbol| {
        symbol.parent == None && symbol.decls == 1 && symbol.exports == 2 && symbol.members == 1
    })
}

#[test]
fn records_are_told_with_counts(rt: HostRuntime) -> Result<(), Fail> {
    let t = tables_of(rt.alloc(), &PLAIN)?;
    assert!(rt; counts_told(&t) && records_told(&t) && module_told(&t) && symbol_told(&t));
    Ok(())
}

#[test]
fn lists_are_told_place_by_place(rt: HostRuntime) -> Result<(), Fail> {
    let t = tables_of(rt.alloc(), &PLAIN)?;
    assert!(rt; places_told(&t));
    Ok(())
}

#[test]
fn entries_are_told(rt: HostRuntime) -> Result<(), Fail> {
    let mut sketch = PLAIN;
    sketch.package.entries = Some(1);
    let t = tables_of(rt.alloc(), &sketch)?;
    assert!(rt; t.entry(LAST_PACKAGE, 0) == Some(LAST_MODULE) && t.entry(LAST_PACKAGE, 1) == None);
    Ok(())
}

#[test]
fn the_number_of_the_refusal(rt: HostRuntime) {
    assert_eq!(rt; Refusal::BrokenRule.number(), 1);
}
