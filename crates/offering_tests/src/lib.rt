// Who offers a name, by examples in the text form of the records.
#![tactic(auto)]

#[cfg(test)]
mod tests {
    use host::Host;
    use ids::{ModuleId, NameId};
    use offering::{Refusal, first_offer, offers};
    use record_text::Listing;
    use redirects::{Redirect, Redirected};
    use resolution::{standing_module, target};
    use routes::route;
    use std::alloc::Global;
    use std::test::Fail;
    use tables::Tables;
    use words::Names;

    // Loaded tables, and what their numbers stand for.
    #[derive(Drop)]
    struct Loaded {
        tables: Tables,
        names: Names,
        modules: Names,
    }

    fn load(heap: Global, text: &str) -> Result<Loaded, Fail> {
        let Listing {
            table,
            names,
            modules,
            packages,
        } = record_text::read(heap, text)?;
        drop(packages);
        let tables = Tables::load(table)?;
        Ok(Loaded {
            tables,
            names,
            modules,
        })
    }

    impl Loaded {
        fn module(&self, text: &str) -> Result<ModuleId, Fail> {
            Ok(ModuleId(self.modules.find(text).ok_or("no such module")?))
        }

        fn name(&self, text: &str) -> Result<NameId, Fail> {
            Ok(NameId(self.names.find(text).ok_or("no such name")?))
        }

        // Whether a module offers a name, in a sheet that is not blank before.
        fn offers(&self, module: &str, name: &str) -> Result<bool, Fail> {
            let mut sheet = [7u8; 16];
            let module = self.module(module)?;
            let name = self.name(name)?;
            Ok(offers(&self.tables, &mut sheet, module, name)?)
        }

        fn first(&self, module: &str, name: &str) -> Result<Option<usize>, Fail> {
            let mut sheet = [7u8; 16];
            let module = self.module(module)?;
            let name = self.name(name)?;
            Ok(first_offer(&self.tables, &mut sheet, module, name)?)
        }

        // How many steps there are from a module to one that exports a name.
        fn steps(&self, heap: Global, module: &str, name: &str) -> Result<Option<usize>, Fail> {
            let module = self.module(module)?;
            let name = self.name(name)?;
            Ok(route(heap, &self.tables, module, name)?.map(|steps| steps.len()))
        }
    }

    // a and b pass each other on; b also passes c on, which exports x; a exports y; d has nothing to do with them and exports z.
    const RING: &str = "
module a typed - -
  dependency ./b b
  export-all 0 1 ./b
  symbol -
    export y 0
    definition 0 9 - Module -
module b typed - -
  dependency ./a a
  dependency ./c c
  export-all 0 1 ./a
  export-all 1 2 ./c
  symbol -
    definition 0 9 - Module -
module c typed - -
  symbol -
    export x 0
    export default 0
    definition 0 9 - Module -
module d typed - -
  symbol -
    export z 0
    definition 0 9 - Module -
";

    #[test]
    fn a_ring_ends(rt: HostRuntime) -> Result<(), Fail> {
        let ring = load(rt.alloc(), RING)?;
        assert!(rt; ring.offers("a", "x")?);
        assert!(rt; ring.offers("b", "y")?);
        assert!(rt; !ring.offers("a", "z")?);
        assert_eq!(rt;
            ring.first("b", "x")?,
            Some(0),
            "a offers x too, by way of b"
        );
        assert_eq!(rt; ring.first("a", "z")?, None);
        Ok(())
    }

    #[test]
    fn default_is_not_passed_on(rt: HostRuntime) -> Result<(), Fail> {
        let ring = load(rt.alloc(), RING)?;
        assert!(rt; ring.offers("c", "default")?);
        assert!(rt; !ring.offers("b", "default")?);
        assert_eq!(rt; ring.first("b", "default")?, None);
        assert_eq!(rt; ring.steps(rt.alloc(), "b", "default")?, None);
        Ok(())
    }

    #[test]
    fn routes_through_a_ring(rt: HostRuntime) -> Result<(), Fail> {
        let ring = load(rt.alloc(), RING)?;
        assert_eq!(rt; ring.steps(rt.alloc(), "a", "x")?, Some(2));
        assert_eq!(rt; ring.steps(rt.alloc(), "a", "y")?, Some(0));
        assert_eq!(rt; ring.steps(rt.alloc(), "a", "z")?, None);
        Ok(())
    }

    // a passes b and c on, both of which pass d on; d exports x, c exports y.
    const DIAMOND: &str = "
module a typed - -
  dependency b b
  dependency c c
  export-all 0 1 b
  export-all 1 2 c
  symbol -
    definition 0 9 - Module -
module b typed - -
  dependency d d
  export-all 0 1 d
  symbol -
    definition 0 9 - Module -
module c typed - -
  dependency d d
  export-all 0 1 d
  symbol -
    export y 0
    definition 0 9 - Module -
module d untyped - -
  symbol -
    export x 0
    definition 0 9 - Module -
";

    #[test]
    fn the_first_that_offers(rt: HostRuntime) -> Result<(), Fail> {
        let diamond = load(rt.alloc(), DIAMOND)?;
        assert_eq!(rt; diamond.first("a", "x")?, Some(0));
        assert_eq!(rt; diamond.first("a", "y")?, Some(1));
        assert_eq!(rt; diamond.steps(rt.alloc(), "a", "x")?, Some(2));
        Ok(())
    }

    // Of the export-alls of a, one has no dependency, one aims nowhere, one at a missing module, one at an external one and one at a
    // module whose types are missing, which exports x.
    const LOST: &str = "
module a typed - -
  dependency nowhere -
  dependency gone gone
  dependency outside outside
  dependency half half
  export-all 0 1 unknown
  export-all 1 2 nowhere
  export-all 2 3 gone
  export-all 3 4 outside
  export-all 4 5 half
  symbol -
    definition 0 9 - Module -
module gone missing - -
module outside external - -
module half typed - gone
  symbol -
    export x 0
    definition 0 9 - Module -
module named typed - -
  symbol -
    export w 0
    definition 0 9 - Module -
";

    #[test]
    fn lost_targets_offer_nothing(rt: HostRuntime) -> Result<(), Fail> {
        let lost = load(rt.alloc(), LOST)?;
        let a = lost.module("a")?;
        assert_eq!(rt; target(&lost.tables, a, lost.name("unknown")?), None);
        assert_eq!(rt; target(&lost.tables, a, lost.name("nowhere")?), None);
        assert_eq!(rt; target(&lost.tables, a, lost.name("gone")?), None);
        assert_eq!(rt;
            target(&lost.tables, a, lost.name("outside")?),
            Some(lost.module("outside")?)
        );
        assert_eq!(rt;
            target(&lost.tables, a, lost.name("half")?),
            Some(lost.module("half")?)
        );
        assert_eq!(rt; lost.first("a", "x")?, Some(4));
        assert!(rt; !lost.offers("a", "w")?);
        assert!(rt; !lost.offers("gone", "x")?);
        assert!(rt; !lost.offers("outside", "x")?);
        Ok(())
    }

    // Three modules have their types in each other.
    const TYPES_RING: &str = "
module a typed - b
  symbol -
    export x 0
    definition 0 9 - Module -
module b typed - c
  symbol -
    export y 0
    definition 0 9 - Module -
module c typed - a
  symbol -
    export z 0
    definition 0 9 - Module -
";

    #[test]
    fn a_ring_of_types_ends_after_eight_steps(rt: HostRuntime) -> Result<(), Fail> {
        let ring = load(rt.alloc(), TYPES_RING)?;
        assert_eq!(rt;
            standing_module(&ring.tables, ring.module("a")?),
            ring.module("c")?
        );
        assert!(rt; ring.offers("a", "z")?);
        assert!(rt; !ring.offers("a", "x")?);
        Ok(())
    }

    // The types of a are in b, whose types are external; those of c are missing.
    const TYPES: &str = "
module a typed - b
  symbol -
    definition 0 9 - Module -
module b typed - outside
  symbol -
    definition 0 9 - Module -
module c typed - gone
  symbol -
    definition 0 9 - Module -
module outside external - -
module gone missing - -
";

    #[test]
    fn standing_enters_neither_missing_nor_external(rt: HostRuntime) -> Result<(), Fail> {
        let types = load(rt.alloc(), TYPES)?;
        assert_eq!(rt;
            standing_module(&types.tables, types.module("a")?),
            types.module("b")?
        );
        assert_eq!(rt;
            standing_module(&types.tables, types.module("c")?),
            types.module("c")?
        );
        assert_eq!(rt; standing_module(&types.tables, ModuleId(9)), ModuleId(9));
        Ok(())
    }

    #[test]
    fn the_sheet_is_blank_as_far_as_there_are_modules(rt: HostRuntime) -> Result<(), Fail> {
        let ring = load(rt.alloc(), RING)?;
        let mut sheet = [7u8; 6];
        assert!(rt; offers(&ring.tables, &mut sheet, ring.module("a")?, ring.name("x")?)?);
        assert!(rt; sheet == [0, 0, 0, 0, 7, 7]);
        let mut short = [7u8; 3];
        let refused = offers(&ring.tables, &mut short, ring.module("a")?, ring.name("x")?);
        assert_eq!(rt; refused, Err(Refusal::ShortSheet));
        assert_eq!(rt; Refusal::ShortSheet.number(), 7);
        assert!(rt; short == [7, 7, 7]);
        Ok(())
    }

    // Redirects over the ring: what aims at c is sent to d.
    #[test]
    fn redirects_send_targets_on(rt: HostRuntime) -> Result<(), Fail> {
        let heap = rt.alloc();
        let Loaded {
            tables,
            names,
            modules,
        } = load(heap, RING)?;
        drop(modules);
        let z = NameId(names.find("z").ok_or("no such name")?);
        let x = NameId(names.find("x").ok_or("no such name")?);
        let to_d = Redirect {
            from: ModuleId(2),
            to: ModuleId(3),
        };
        let Ok(layer) = Redirected::new(tables, vec![in heap; to_d]?) else {
            return Err(Fail::new("refused"));
        };
        let mut sheet = [0u8; 4];
        assert!(rt; offers(&layer, &mut sheet, ModuleId(0), z)?);
        assert!(rt; !offers(&layer, &mut sheet, ModuleId(0), x)?);
        assert_eq!(rt; layer.modules(), 4);
        Ok(())
    }
}
