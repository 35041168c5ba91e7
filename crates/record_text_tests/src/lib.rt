// Tests of the text of records, apart from its reader: that is then proved once.
#![tactic(auto)]

#[cfg(test)]
mod tests {
    use host::{
        FileDep, FileDepName, Host, ModuleKind, NodeKind, ReferenceNamespace, SymbolDeclKind,
        SymbolNodeDep,
    };
    use ids::{ModuleId, PackageId, SymbolId};
    use record_text::{Expected, Fault, read};
    use std::alloc::Global;
    use std::test::Fail;
    use tables::Tables;

    // One line of each form.
    const BAKERY: &str = "\
# two packages of a bakery
package bakery exports
  entry rye.ts
  entry flour.d.ts
package plain

module flour.js external bakery -
module rye.ts typed bakery -
  dependency ./flour.js flour.js
  dependency ./gone.ts -
  export-all 0 30 ./flour.js
  symbol -
    export default 1
    export Loaf 1
    member 1
    alias 31 40 Bread 1
    qualified-alias 41 50 - - Loaf.crust
    file-ref 51 60 Mill ./flour.js *
    file-ref 61 70 Grain ./flour.js grain
  symbol 0
    definition 71 99 Loaf ExportClass export,class   # with its references
      id 0 both
      id - type
      qualified-id 1 prototype.crust
      import-type ./flour.js -
      import-type ./flour.js grain.kind
module flour.d.ts external bakery -
";

    #[test]
    fn every_form(rt: HostRuntime) -> Result<(), Fail> {
        let listing = read(rt.alloc(), BAKERY)?;
        assert!(rt; listing.modules.text(1) == Some("rye.ts"));
        assert_eq!(rt; listing.modules.len(), 3);
        assert!(rt; listing.packages.text(1) == Some("plain"));
        assert_eq!(rt; listing.packages.len(), 2);
        assert!(rt; listing.names.text(0) == Some("default"));
        assert!(rt; listing.names.text(2) == Some("./flour.js"));
        assert!(rt; listing.names.text(3) == Some("./gone.ts"));
        let names = listing.names.len();
        let host = Tables::load(listing.table)?;
        assert_eq!(rt; host.names(), names as usize);
        assert_eq!(rt; host.modules(), 3);
        assert_eq!(rt; host.packages(), 2);
        let bakery = host.package(PackageId(0)).ok_or("no package")?;
        assert_eq!(rt; bakery.entries, Some(2));
        let plain = host.package(PackageId(1)).ok_or("no package")?;
        assert_eq!(rt; plain.entries, None);
        Ok(())
    }

    #[test]
    fn a_module_and_its_symbols(rt: HostRuntime) -> Result<(), Fail> {
        let listing = read(rt.alloc(), BAKERY)?;
        let host = Tables::load(listing.table)?;
        let rye = host.module(ModuleId(1)).ok_or("no module")?;
        assert_eq!(rt; rye.kind, ModuleKind::Typed);
        assert_eq!(rt; rye.dependencies, 2);
        assert_eq!(rt; rye.re_export_alls, 1);
        assert_eq!(rt; rye.symbols, 2);
        let first = host.symbol(ModuleId(1), SymbolId(0)).ok_or("no symbol")?;
        assert_eq!(rt; first.decls, 4);
        assert_eq!(rt; first.exports, 2);
        assert_eq!(rt; first.members, 1);
        let second = host.symbol(ModuleId(1), SymbolId(1)).ok_or("no symbol")?;
        assert_eq!(rt; second.decls, 1);
        Ok(())
    }

    #[test]
    fn declarations_and_references(rt: HostRuntime) -> Result<(), Fail> {
        let listing = read(rt.alloc(), BAKERY)?;
        let host = Tables::load(listing.table)?;
        assert!(rt; asks_for_all(&host, 2));
        assert!(rt; !asks_for_all(&host, 3));
        let loaf = host
            .decl(ModuleId(1), SymbolId(1), 0)
            .ok_or("no declaration")?;
        assert_eq!(rt; loaf.range.start, 71);
        assert_eq!(rt; loaf.range.end, 99);
        assert!(rt; loaf.flags.export && loaf.flags.class && !loaf.flags.body);
        assert_eq!(rt;
            loaf.kind,
            SymbolDeclKind::Definition(NodeKind::ExportClass, 5)
        );
        let second = host
            .dep(ModuleId(1), SymbolId(1), 0, 1)
            .ok_or("no reference")?;
        assert_eq!(rt; second, SymbolNodeDep::Id(None, ReferenceNamespace::Type));
        Ok(())
    }

    // Whether the declaration at a place of the first symbol asks a file for all that it has.
    fn asks_for_all(host: &Tables, place: usize) -> bool {
        host.decl(ModuleId(1), SymbolId(0), place)
            .is_some_and(|decl| {
                matches!(
                    decl.kind,
                    SymbolDeclKind::FileRef(FileDep {
                        name: FileDepName::Star,
                        ..
                    })
                )
            })
    }

    // The example of docs/RECORDS.md.
    const EXAMPLE: &str = "\
package bakery exports
  entry rye.ts
module flour.ts external bakery -
module rye.ts typed bakery -
  dependency ./flour.ts flour.ts
  symbol -                                # the module itself
    export Loaf 1
    definition 0 90 - Module -
  symbol 0
    definition 10 80 Loaf ExportClass export,class
      id - value
      import-type ./flour.ts grain.kind
";

    #[test]
    fn the_example_keeps_the_rules(rt: HostRuntime) -> Result<(), Fail> {
        let host = Tables::load(read(rt.alloc(), EXAMPLE)?.table)?;
        assert_eq!(rt; host.modules(), 2);
        Ok(())
    }

    // The line and what was expected of a text that is not read. The tests of requests have such a pair of functions
    // too: a crate of tests alone has none that another crate could call.
    fn expected(heap: Global, text: &str) -> Result<(usize, Expected), Fail> {
        match read(heap, text).err().ok_or("no fault")? {
            Fault::Line {
                number,
                problem,
                ..
            } => Ok((number, problem)),
            Fault::NoMemory => Err(Fail::new("no memory")),
        }
    }

    fn message(heap: Global, text: &str) -> Result<String, Fail> {
        Ok(read(heap, text).err().ok_or("no fault")?.to_string(heap)?)
    }

    #[test]
    fn faults_of_words(rt: HostRuntime) -> Result<(), Fail> {
        let heap = rt.alloc();
        assert_eq!(rt; expected(heap, "\npacket x")?, (2, Expected::Keyword));
        assert_eq!(rt; expected(heap, "package x y")?, (1, Expected::PackageWords));
        assert_eq!(rt; expected(heap, "entry a")?, (1, Expected::Module));
        assert_eq!(rt;
            expected(heap, "module a typed b -")?,
            (1, Expected::PackageOrNone)
        );
        assert_eq!(rt;
            expected(heap, "module a typed - b")?,
            (1, Expected::ModuleOrNone)
        );
        assert_eq!(rt;
            expected(heap, "module a ts - -")?,
            (1, Expected::ModuleKind)
        );
        assert_eq!(rt; expected(heap, "member x")?, (1, Expected::SymbolNumber));
        assert_eq!(rt;
            expected(heap, "export-all 1 4294967296 x")?,
            (1, Expected::Offset)
        );
        assert_eq!(rt;
            expected(heap, "definition 1 2 x Class -")?,
            (1, Expected::NodeKind)
        );
        assert_eq!(rt;
            expected(heap, "definition 1 2 x Var body,")?,
            (1, Expected::Flags)
        );
        assert_eq!(rt; expected(heap, "qualified-id 1 a..b")?, (1, Expected::Path));
        assert_eq!(rt; expected(heap, "id 1 values")?, (1, Expected::Namespace));
        Ok(())
    }

    #[test]
    fn faults_of_places(rt: HostRuntime) -> Result<(), Fail> {
        let heap = rt.alloc();
        assert_eq!(rt;
            expected(heap, "package p\npackage p")?,
            (2, Expected::NewPackage)
        );
        assert_eq!(rt;
            expected(heap, "module a json - -\nmodule a json - -")?,
            (2, Expected::NewModule)
        );
        assert_eq!(rt;
            expected(heap, "package p\nentry a\nmodule a json - -")?,
            (2, Expected::ExportTableAbove)
        );
        assert_eq!(rt;
            expected(heap, "module a json - -\npackage p\nsymbol -")?,
            (3, Expected::ModuleAbove)
        );
        assert_eq!(rt;
            expected(heap, "module a typed - -\nmember 0")?,
            (2, Expected::SymbolAbove)
        );
        assert_eq!(rt;
            expected(
                heap,
                "module a typed - -\nsymbol -\nalias 0 1 x -\nid 0 both",
            )?,
            (4, Expected::DefinitionAbove)
        );
        Ok(())
    }

    #[test]
    fn messages(rt: HostRuntime) -> Result<(), Fail> {
        let heap = rt.alloc();
        let symbol = message(heap, "module a typed - -\n\n  symbol x # no number")?;
        assert!(rt; symbol.as_str() == "line 3: expected a symbol number or -, found \"x\"");
        let words = message(heap, "module a typed - -\nsymbol -\nexport a")?;
        assert!(rt;
            words.as_str()
                == "line 3: expected 2 words after the keyword and not 1, found \"export\""
        );
        let below = message(heap, "symbol -")?;
        assert!(rt; below.as_str() == "line 1: expected a module above, found \"symbol\"");
        Ok(())
    }
}
