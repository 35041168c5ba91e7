// How much a program has, and the entries of a package.
use crate::building::*;
use crate::cases::*;
use ids::ModuleId;
use std::test::Fail;

// So many names, of which none but the first is used.
fn names(names: u32) -> Sketch {
    let mut s = PLAIN;
    s.names = names;
    s.module.dependencies = 1;
    s.symbol.exports = 1;
    s
}

fn packages(packages: usize) -> Sketch {
    let mut s = PLAIN;
    s.packages = packages;
    s
}

fn modules(modules: usize) -> Sketch {
    let mut s = PLAIN;
    s.modules = modules;
    s
}

// So many entries, each this module.
fn entries(entry: ModuleId, count: usize) -> Sketch {
    let mut s = PLAIN;
    s.entry = entry;
    s.package.entries = Some(count);
    s
}

#[test]
fn names_are_2_to_65535(rt: HostRuntime) -> Result<(), Fail> {
    loaded(rt.alloc(), &[names(2), names(65535)])?;
    refused(rt.alloc(), &[names(1), names(65536)])
}

#[test]
fn packages_and_modules_are_not_too_many(rt: HostRuntime) -> Result<(), Fail> {
    loaded(rt.alloc(), &[packages(256), modules(1024)])?;
    refused(rt.alloc(), &[packages(257), modules(1025)])
}

#[test]
fn entries_may_repeat_and_are_not_too_many(rt: HostRuntime) -> Result<(), Fail> {
    loaded(
        rt.alloc(),
        &[
            entries(LAST_MODULE, 0),
            entries(LAST_MODULE, 2),
            entries(LAST_MODULE, 4096),
        ],
    )?;
    refused(rt.alloc(), &[entries(LAST_MODULE, 4097)])
}

#[test]
fn entries_are_modules_of_their_package(rt: HostRuntime) -> Result<(), Fail> {
    let of_another = entries(ModuleId(0), 1);
    let of_none = entries(ModuleId(1), 1);
    loaded(rt.alloc(), &[entries(LAST_MODULE, 1)])?;
    refused(rt.alloc(), &[of_another, of_none, entries(NO_MODULE, 1)])
}
