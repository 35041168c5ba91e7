// The table of records by examples: what is handed out, which rows are used, what is refused.
#![tactic(auto)]

#[cfg(test)]
mod tests {
    use ids::{ModuleId, NameId, Path};
    use joining::{Extent, Records, Refusal, Request};
    use std::test::Fail;

    const DOUGH: ModuleId = ModuleId(0);

    const OVEN: ModuleId = ModuleId(1);

    const NONE: ModuleId = ModuleId(2);

    const FLOUR: NameId = NameId(2);

    const SCALE: NameId = NameId(3);

    const WATER: NameId = NameId(4);

    // A path of one name cannot fail: one helper for both would put a `?` at each use of it.
    fn one(name: NameId) -> Request {
        Request::Path(Path::single(name))
    }

    fn two(first: NameId, second: NameId) -> Result<Request, Fail> {
        Ok(Request::Path(Path::from_names(&[first, second])?))
    }

    #[test]
    fn a_path_asked_twice(rt: HostRuntime) -> Result<(), Fail> {
        let mut t = Records::new(rt.alloc(), 2, 4)?;
        let scale = two(FLOUR, SCALE)?;
        assert_eq!(rt; t.join(DOUGH, scale)?, Some(scale));
        assert_eq!(rt; t.join(DOUGH, scale)?, None);
        assert_eq!(rt; t.join(OVEN, scale)?, Some(scale));
        assert_eq!(rt; t.free(), 2);
        Ok(())
    }

    #[test]
    fn a_front_takes_the_place_of_what_it_covers(rt: HostRuntime) -> Result<(), Fail> {
        let mut t = Records::new(rt.alloc(), 1, 4)?;
        t.join(DOUGH, two(FLOUR, SCALE)?)?;
        t.join(DOUGH, one(WATER))?;
        assert_eq!(rt; t.join(DOUGH, one(FLOUR))?, Some(one(FLOUR)));
        assert_eq!(rt; t.join(DOUGH, two(FLOUR, WATER)?)?, None);
        assert_eq!(rt; t.kept(DOUGH), 2);
        assert!(rt; t.rows().len() == 2);
        assert_eq!(rt;
            t.rows()[0].path,
            Path::single(WATER),
            "the front goes last"
        );
        assert_eq!(rt; t.rows()[1].path, Path::single(FLOUR));
        Ok(())
    }

    #[test]
    fn star_and_a_part_of_default(rt: HostRuntime) -> Result<(), Fail> {
        let mut t = Records::new(rt.alloc(), 2, 4)?;
        let part = two(NameId::DEFAULT, SCALE)?;
        assert_eq!(rt; t.join(DOUGH, Request::Star)?, Some(Request::Star));
        assert_eq!(rt; t.join(DOUGH, one(FLOUR))?, None);
        assert_eq!(rt; t.join(DOUGH, part)?, Some(one(NameId::DEFAULT)));
        assert_eq!(rt; t.extent(DOUGH), Some(Extent::Full));
        assert_eq!(rt; t.join(OVEN, part)?, Some(part));
        assert_eq!(rt; t.join(OVEN, Request::Star)?, Some(Request::Full));
        assert_eq!(rt; t.extent(OVEN), Some(Extent::Full));
        assert_eq!(rt; t.join(OVEN, Request::Full)?, None);
        Ok(())
    }

    #[test]
    fn star_and_all_of_default(rt: HostRuntime) -> Result<(), Fail> {
        let mut t = Records::new(rt.alloc(), 2, 4)?;
        let default = one(NameId::DEFAULT);
        t.join(DOUGH, default)?;
        assert_eq!(rt; t.join(DOUGH, Request::Star)?, Some(Request::Star));
        assert_eq!(rt; t.extent(DOUGH), Some(Extent::Full));
        assert_eq!(rt; t.join(OVEN, Request::Star)?, Some(Request::Star));
        assert_eq!(rt; t.join(OVEN, Request::Full)?, Some(default));
        assert_eq!(rt; t.join(OVEN, default)?, None);
        Ok(())
    }

    #[test]
    fn a_table_exactly_full(rt: HostRuntime) -> Result<(), Fail> {
        let mut t = Records::new(rt.alloc(), 2, 2)?;
        t.join(DOUGH, one(FLOUR))?;
        t.join(OVEN, one(WATER))?;
        assert_eq!(rt; t.free(), 0);
        assert_eq!(rt; t.join(DOUGH, one(WATER)), Err(Refusal::NoFreeRow));
        assert_eq!(rt;
            t.join(DOUGH, one(FLOUR)),
            Err(Refusal::NoFreeRow),
            "known, and refused all the same"
        );
        assert_eq!(rt; t.rows().len(), 2);
        assert_eq!(rt;
            t.join(DOUGH, Request::Star)?,
            Some(Request::Star),
            "star wants no row"
        );
        assert_eq!(rt; t.free(), 1);
        assert_eq!(rt;
            t.join(OVEN, one(FLOUR))?,
            Some(one(FLOUR)),
            "a freed row serves again"
        );
        Ok(())
    }

    #[test]
    fn past_the_last_module(rt: HostRuntime) -> Result<(), Fail> {
        let mut t = Records::new(rt.alloc(), 2, 0)?;
        assert_eq!(rt; t.modules(), 2);
        assert_eq!(rt; t.extent(NONE), None);
        assert_eq!(rt; t.extent(OVEN), Some(Extent::Paths));
        assert_eq!(rt; t.join(NONE, one(FLOUR)), Err(Refusal::NoSuchModule));
        assert_eq!(rt; t.join(OVEN, one(FLOUR)), Err(Refusal::NoFreeRow));
        assert_eq!(rt; t.clear(NONE), Err(Refusal::NoSuchModule));
        assert_eq!(rt; Refusal::NoSuchModule.number(), 1);
        assert_eq!(rt; Refusal::NoFreeRow.number(), 9);
        Ok(())
    }

    #[test]
    fn a_record_joined_to_another(rt: HostRuntime) -> Result<(), Fail> {
        let heap = rt.alloc();
        let mut held = Records::new(heap, 2, 4)?;
        held.join(DOUGH, one(FLOUR))?;
        held.join(DOUGH, one(WATER))?;
        let mut t = Records::new(heap, 2, 2)?;
        t.join(DOUGH, two(WATER, SCALE)?)?;
        assert_eq!(rt;
            t.join_record(DOUGH, &held),
            Err(Refusal::NoFreeRow),
            "one free row, and two wanted"
        );
        assert_eq!(rt; t.kept(DOUGH), 1);
        t.clear(DOUGH)?;
        assert_eq!(rt; t.free(), 2);
        t.join_record(DOUGH, &held)?;
        assert!(rt; t.rows().len() == 2);
        assert_eq!(rt; t.rows()[0].path, Path::single(FLOUR));
        held.join(DOUGH, Request::Star)?;
        t.join_record(DOUGH, &held)?;
        assert_eq!(rt; t.extent(DOUGH), Some(Extent::Star));
        assert_eq!(rt; t.free(), 2);
        Ok(())
    }
}
