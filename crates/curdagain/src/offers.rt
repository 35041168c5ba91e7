// What is printed of who offers names.
use crate::failures::Failure;
use host::Host;
use ids::{ModuleId, NameId};
use offering::first_offer;
use record_text::Listing;
use resolution::{exports, re_export_target, standing_module};
use routes::route;
use std::alloc::{AllocError, Global};
use std::fmt::Write;
use tables::Tables;
use words::Names;

// For each name in turn, which export-all of the module offers it, and through which modules it comes.
pub(crate) fn explain(
    heap: Global,
    listing: Listing,
    module: &str,
    wanted: &[String],
) -> Result<String, Failure> {
    let Listing {
        table,
        names,
        modules,
        packages,
    } = listing;
    drop(packages);
    let tables = Tables::load(table)?;
    let Some(number) = modules.find(module) else {
        return Err(Failure::NoSuchModule(String::from_str(heap, module)?));
    };
    let mut told = Explanation {
        host: &tables,
        names: &names,
        modules: &modules,
        out: String::new(heap),
    };
    told.all(heap, ModuleId(number), wanted)?;
    Ok(told.out)
}

// What has been said of a host, with what its numbers stand for.
#[derive(Drop)]
struct Explanation<'a, H> {
    host: &'a H,
    names: &'a Names,
    modules: &'a Names,
    out: String,
}

impl<'a, H: Host> Explanation<'a, H> {
    // The module that stands for it, and then the names.
    fn all(&mut self, heap: Global, module: ModuleId, wanted: &[String]) -> Result<(), Failure> {
        let standing = standing_module(self.host, module);
        let text = self.module(module);
        write!(self.out, "{text}")?;
        if standing != module {
            let text = self.module(standing);
            write!(self.out, ", for which stands {text}")?;
        }
        writeln!(self.out)?;
        let mut sheet = vec![in heap; 0u8; self.host.modules()]?;
        for word in wanted {
            writeln!(self.out, "{word}")?;
            self.name(heap, sheet.as_mut_slice(), standing, word.as_str())?;
        }
        Ok(())
    }

    // Who exports a name, or by which export-all it comes.
    fn name(
        &mut self,
        heap: Global,
        sheet: &mut [u8],
        standing: ModuleId,
        word: &str,
    ) -> Result<(), Failure> {
        let Some(number) = self.names.find(word) else {
            writeln!(self.out, "  not offered: no record has this name")?;
            return Ok(());
        };
        let name = NameId(number);
        if exports(self.host, standing, name) {
            return self.owner(standing, word);
        }
        match first_offer(self.host, sheet, standing, name)? {
            Some(place) => self.offer(heap, standing, place, name),
            None => self.none(name),
        }
    }

    // The export-all at a place offers the name: the steps to a module that exports it.
    fn offer(
        &mut self,
        heap: Global,
        from: ModuleId,
        place: usize,
        name: NameId,
    ) -> Result<(), Failure> {
        let Some(mut at) = self.step(from, place)? else {
            return Ok(());
        };
        if let Some(steps) = route(heap, self.host, at, name)? {
            for step in steps.iter() {
                self.step(at, step.place)?;
                at = step.to;
            }
        }
        let word = self.names.text_or_empty(name.0);
        self.owner(at, word)
    }

    // One line on an export-all; answers the module that it leads to, or the one that stands for that.
    fn step(&mut self, from: ModuleId, place: usize) -> Result<Option<ModuleId>, AllocError> {
        let Some(re_export_all) = self.host.re_export_all(from, place) else {
            return Ok(None);
        };
        let Some(target) = re_export_target(self.host, from, place) else {
            return Ok(None);
        };
        let to = standing_module(self.host, target);
        let specifier = self.names.text_or_empty(re_export_all.specifier.0);
        let start = re_export_all.range.start;
        let end = re_export_all.range.end;
        let of = self.module(from);
        let led = self.module(to);
        writeln!(
            self.out,
            "  export-all {place} ({specifier}, {start} to {end}) of {of} leads to {led}"
        )?;
        Ok(Some(to))
    }

    fn owner(&mut self, module: ModuleId, word: &str) -> Result<(), Failure> {
        let text = self.module(module);
        writeln!(self.out, "  {text} exports {word}")?;
        Ok(())
    }

    fn none(&mut self, name: NameId) -> Result<(), Failure> {
        let why = match name {
            NameId::DEFAULT => ": no export-all passes default on",
            _ => "",
        };
        writeln!(self.out, "  not offered{why}")?;
        Ok(())
    }

    // The text of a module's number.
    fn module(&self, module: ModuleId) -> &'a str {
        self.modules.text_or_empty(module.0)
    }
}
