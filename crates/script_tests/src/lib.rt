// Tests of the text layer, apart from it: the crate that they test is then proved once.
#![tactic(auto)]

#[cfg(test)]
mod tests {
    use script::{Fault, Line, Names, Problem, read, request_text};
    use std::alloc::Global;
    use std::fmt::Write;
    use std::test::Fail;

    // Lines, each as its number, its module and its word.
    fn listed(heap: Global, names: &Names, lines: &[Line]) -> Result<String, Fail> {
        let mut all = String::new(heap);
        for line in lines {
            let number = line.number;
            let module = line.module.0;
            let request = request_text(heap, names, &line.request)?;
            write!(all, "{number} {module} {request};")?;
        }
        Ok(all)
    }

    fn told(heap: Global, text: &str) -> Result<String, Fail> {
        let requests = read(heap, text)?;
        listed(heap, &requests.names, requests.lines.as_slice())
    }

    // The line and the problem of a text that is not read. The tests of the text of records have such a pair of functions
    // too: a crate of tests alone has none that another crate could call.
    fn problem(heap: Global, text: &str) -> Result<(usize, Problem), Fail> {
        match read(heap, text).err().ok_or("no fault")? {
            Fault::Line {
                number,
                problem,
                ..
            } => Ok((number, problem)),
            Fault::NoMemory => Err(Fail::new("no memory")),
        }
    }

    fn message(heap: Global, text: &str) -> Result<String, Fail> {
        Ok(read(heap, text).err().ok_or("no fault")?.to_string(heap)?)
    }

    #[test]
    fn reads_lines(rt: HostRuntime) -> Result<(), Fail> {
        let text = "# requests\na.ts star\n\n  b.ts\tx.y # two names\r\na.ts full";
        let all = told(rt.alloc(), text)?;
        assert!(rt; all.as_str() == "2 0 star;4 1 x.y;5 0 full;");
        Ok(())
    }

    #[test]
    fn reads_eight_names(rt: HostRuntime) -> Result<(), Fail> {
        let all = told(rt.alloc(), "m a.b.c.d.e.f.g.h\nm .default")?;
        assert!(rt; all.as_str() == "1 0 a.b.c.d.e.f.g.h;2 0 default;");
        Ok(())
    }

    #[test]
    fn reads_back(rt: HostRuntime) -> Result<(), Fail> {
        let all = told(rt.alloc(), "m .star\nm .full\nm .full.x\nm star.x\nm star")?;
        assert!(rt; all.as_str() == "1 0 .star;2 0 .full;3 0 full.x;4 0 star.x;5 0 star;");
        Ok(())
    }

    #[test]
    fn numbers_names(rt: HostRuntime) -> Result<(), Fail> {
        let requests = read(rt.alloc(), "m x.y.x\nn prototype.y")?;
        assert_eq!(rt; requests.names.find("default"), Some(0));
        assert_eq!(rt; requests.names.find("prototype"), Some(1));
        assert_eq!(rt; requests.names.find("x"), Some(2));
        assert_eq!(rt; requests.names.find("y"), Some(3));
        assert_eq!(rt; requests.names.len(), 4);
        assert_eq!(rt; requests.modules.find("n"), Some(1));
        Ok(())
    }

    #[test]
    fn finds_problems_of_words(rt: HostRuntime) -> Result<(), Fail> {
        let heap = rt.alloc();
        assert_eq!(rt; problem(heap, "m star\nm # full")?, (2, Problem::NoRequest));
        assert_eq!(rt; problem(heap, "\nm star x")?, (2, Problem::TooManyWords));
        assert_eq!(rt; problem(heap, "m a..b")?, (1, Problem::EmptyName));
        assert_eq!(rt; problem(heap, "m a.")?, (1, Problem::EmptyName));
        assert_eq!(rt; problem(heap, "m .")?, (1, Problem::EmptyName));
        assert_eq!(rt; problem(heap, "m ..a")?, (1, Problem::EmptyName));
        assert_eq!(rt;
            problem(heap, "m a.b.c.d.e.f.g.h.i")?,
            (1, Problem::TooManyNames(9))
        );
        Ok(())
    }

    #[test]
    fn says_what_it_expected(rt: HostRuntime) -> Result<(), Fail> {
        let heap = rt.alloc();
        let long = message(heap, "\n\n\nm .a.b.c.d.e.f.g.h.i")?;
        assert!(rt;
            long.as_str()
                == "line 4: expected a path of at most 8 names, found 9 in \".a.b.c.d.e.f.g.h.i\""
        );
        let short = message(heap, "m")?;
        assert!(rt;
            short.as_str() == "line 1: expected a request after the module, found only \"m\""
        );
        Ok(())
    }

    #[test]
    fn counts_modules(rt: HostRuntime) -> Result<(), Fail> {
        let heap = rt.alloc();
        let mut text = String::new(heap);
        for module in 0..1024u32 {
            write!(text, "m{module} full\n")?;
        }
        let requests = read(heap, text.as_str())?;
        assert_eq!(rt; requests.modules.len(), 1024);
        text.push_str("m1023 full\nlast full\n")?;
        assert_eq!(rt;
            problem(heap, text.as_str())?,
            (1026, Problem::TooManyModules)
        );
        Ok(())
    }

    #[test]
    fn fills_a_table(rt: HostRuntime) -> Result<(), Fail> {
        let mut names = Names::of_declarations(rt.alloc(), 3)?;
        assert_eq!(rt; names.intern("prototype")?, 1);
        assert_eq!(rt; names.intern("x")?, 2);
        assert!(rt; names.intern("y").is_err());
        assert_eq!(rt; names.intern("x")?, 2);
        assert!(rt; names.text(2) == Some("x"));
        assert!(rt; names.text(3).is_none());
        Ok(())
    }
}
