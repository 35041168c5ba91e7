// The names of the modules and packages of a text, before its lines are read: a line may name a module that a later one has.
ghost use Rattle.record_text.specs.Collecting as spec;

use crate::faults::Fault;
use crate::texts::Texts;
use std::alloc::Global;
use words::{Names, content, first_word};

// Adds a name that is new. The table has room for 2^32 - 1 names: memory ends first.
fn add(names: &mut Names, name: &str) -> Result<(), Fault>
    ensures { spec.NameAdded names.old name.now names.new result }
{
    names.intern(name).map_err(|_| Fault::NoMemory)?;
    Ok(())
}

// Adds the name of the module or the package that a line has.
fn collect_line(texts: &mut Texts, line: &str) -> Result<(), Fault>
    ensures { spec.LineCollected texts.old line.now texts.new result }
{
    let Some((keyword, rest)) = first_word(content(line)) else {
        return Ok(());
    };
    let Some((name, _)) = first_word(rest) else {
        return Ok(());
    };
    match keyword {
        "module" => add(&mut texts.modules, name),
        "package" => add(&mut texts.packages, name),
        _ => Ok(()),
    }
}

// Nothing has been read. The two first names have room: only memory can be short.
fn begun(heap: Global) -> Result<Texts, Fault>
    ensures { spec.TextsBegun result }
{
    let names = Names::of_declarations(heap, u32::MAX).map_err(|_| Fault::NoMemory)?;
    Ok(Texts {
        names,
        modules: Names::new(heap, u32::MAX),
        packages: Names::new(heap, u32::MAX),
    })
}

pub(crate) fn collect(heap: Global, text: &str) -> Result<Texts, Fault>
    ensures { spec.Collects text.now result }
{
    let mut texts = begun(heap)?;
    for line in text.lines() {
        collect_line(&mut texts, line)?;
    }
    Ok(texts)
}
