// What is printed of a list of requests.
use crate::failures::Failure;
use ids::ModuleId;
use joining::{Extent, Records, Request};
use script::{Line, Requests, request_text};
use std::alloc::{AllocError, Global};
use std::fmt::Write;

// The most paths that are kept, of all modules together.
pub(crate) const ROWS: usize = 1024;

// The requests one after another with what is new of each, and then the records.
pub(crate) fn report(heap: Global, requests: &Requests) -> Result<String, Failure> {
    let mut told = Transcript {
        requests,
        records: Records::new(heap, requests.modules.len() as usize, ROWS)?,
        out: String::new(heap),
    };
    for line in requests.lines.iter() {
        told.join(heap, line)?;
    }
    told.records(heap)?;
    Ok(told.out)
}

// What has been said of requests, with the records that they were joined to.
#[derive(Drop)]
struct Transcript<'a> {
    requests: &'a Requests,
    records: Records,
    out: String,
}

impl<'a> Transcript<'a> {
    // Joins one request, and adds a line on what of it is new.
    fn join(&mut self, heap: Global, line: &Line) -> Result<(), Failure> {
        let number = line.number;
        let handed = self
            .records
            .join(line.module, line.request)
            .map_err(|refusal| Failure::Refused(number, refusal))?;
        let asked = self.request(heap, &line.request)?;
        let module = self.module(line.module);
        write!(self.out, "line {number}: {module} {asked}: ")?;
        match handed {
            Some(request) => {
                let new = self.request(heap, &request)?;
                writeln!(self.out, "new is {new}")?;
            }
            None => writeln!(self.out, "nothing is new")?,
        }
        Ok(())
    }

    // Adds each module with its record.
    fn records(&mut self, heap: Global) -> Result<(), AllocError> {
        if self.requests.modules.len() == 0 {
            return writeln!(self.out, "nothing is asked");
        }
        writeln!(self.out, "\nasked of each module:")?;
        for module in (0..self.requests.modules.len()).map(ModuleId) {
            let text = self.module(module);
            write!(self.out, "{text}:")?;
            match self.records.extent(module) {
                Some(Extent::Full) => write!(self.out, " full")?,
                Some(Extent::Star) => write!(self.out, " star")?,
                Some(Extent::Paths) => self.paths(heap, module)?,
                None => {}
            }
            writeln!(self.out)?;
        }
        Ok(())
    }

    // Adds the kept paths of a module.
    fn paths(&mut self, heap: Global, module: ModuleId) -> Result<(), AllocError> {
        let names = &self.requests.names;
        let rows = self.records.rows().iter();
        for row in rows.filter(|row| row.module == module) {
            let path = request_text(heap, names, &Request::Path(row.path))?;
            write!(self.out, " {path}")?;
        }
        Ok(())
    }

    // The text of a module's number.
    fn module(&self, module: ModuleId) -> &'a str {
        self.requests.modules.text_or_empty(module.0)
    }

    // The text of a request.
    fn request(&self, heap: Global, request: &Request) -> Result<String, AllocError> {
        request_text(heap, &self.requests.names, request)
    }
}

#[cfg(test)]
mod tests {
    use super::*;
    use script::read;
    use std::test::Fail;

    fn told(heap: Global, text: &str) -> Result<String, Fail> {
        let requests = read(heap, text)?;
        report(heap, &requests).or_else(|failure| Ok(failure.to_string(heap)?))
    }

    #[test]
    fn each_request_and_then_the_records(rt: HostRuntime) -> Result<(), Fail> {
        let all = told(rt.alloc(), "a x.y\na x.y\nb star\na .star")?;
        assert!(rt;
            all.as_str()
                == "line 1: a x.y: new is x.y\nline 2: a x.y: nothing is new\nline 3: b star: new is star\nline 4: a .star: new is .star\n\nasked of each module:\na: x.y .star\nb: star\n"
        );
        Ok(())
    }

    #[test]
    fn one_path_too_many(rt: HostRuntime) -> Result<(), Fail> {
        let heap = rt.alloc();
        let mut text = String::new(heap);
        for number in 0..1025u32 {
            write!(text, "m n{number}\n")?;
        }
        let told = told(heap, text.as_str())?;
        assert!(rt;
            told.as_str()
                == "line 1025: refused with 9: no row is free, and at most 1024 paths are kept"
        );
        Ok(())
    }
}
