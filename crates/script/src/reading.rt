// Texts become requests.
ghost use Rattle.std.specs.Prelude.{◌≡◌};
ghost use Rattle.script.specs.Faults.{ModuleNamed, unread_of_table};
ghost use Rattle.script.specs.Scripts.{Asked, LineAdded, Read, Begun};
ghost use Rattle.words.specs.Interned.{texts};

use crate::faults::{Fault, Problem, Unread};
use crate::requests::{Line, Requests};
use crate::rows::row_of;
use crate::spelling::read_request;
use ids::ModuleId;
use std::alloc::Global;
use words::{InternError, Names};

// The most modules.
pub const MODULE_LIMIT: u32 = 1024;

// The most names of declarations.
pub const NAME_LIMIT: u32 = 65535;

// Why a module gets no number. No `From`: both sides are types of `words`.
fn unplaced(error: InternError) -> Unread
    ensures { result ≡ unread_of_table error }
{
    match error {
        InternError::Full => Unread::Of(Problem::TooManyModules),
        InternError::NoMemory => Unread::NoMemory,
    }
}

// The number of a module.
fn module_number(modules: &mut Names, text: &str) -> Result<ModuleId, Unread>
    ensures { ModuleNamed (texts modules.old) text.now (texts modules.new) result }
{
    let number = modules.intern(text).map_err(unplaced)?;
    Ok(ModuleId(number))
}

impl Requests {
    // Nothing has been read. The two first names have room: only memory can be short.
    fn begun(heap: Global) -> Result<Requests, Fault>
        ensures { Begun result }
    {
        let names = Names::of_declarations(heap, NAME_LIMIT).map_err(|_| Fault::NoMemory)?;
        Ok(Requests {
            modules: Names::new(heap, MODULE_LIMIT),
            names,
            lines: Vec::new(heap),
        })
    }

    // Adds the request of a line of two words.
    fn ask(&mut self, heap: Global, number: usize, module: &str, word: &str) -> Result<(), Fault>
        ensures { Asked self.old number «module».now word.now self.new result }
    {
        let placed = module_number(&mut self.modules, module);
        let module = placed.map_err(|unread| unread.at(heap, number, module))?;
        let asked = read_request(heap, &mut self.names, word);
        let request = asked.map_err(|unread| unread.at(heap, number, word))?;
        self.lines.push(Line {
            number,
            module,
            request,
        })?;
        Ok(())
    }

    // Adds what a line asks for, if anything.
    fn add_line(&mut self, heap: Global, number: usize, line: &str) -> Result<(), Fault>
        ensures { LineAdded self.old number line.now self.new result }
    {
        match row_of(line) {
            Ok(None) => Ok(()),
            Ok(Some((module, word))) => self.ask(heap, number, module, word),
            Err((problem, word)) => Err(Unread::Of(problem).at(heap, number, word)),
        }
    }
}

// Reads a whole text, or says what is wrong with the first line that cannot be read. The reader of records has such a loop
// too: a closure that changes what has been read would tell a shared one nothing of it.
pub fn read(heap: Global, text: &str) -> Result<Requests, Fault>
    ensures { Read text.now result }
{
    let mut requests = Requests::begun(heap)?;
    for (before, line) in text.lines().enumerate() {
        requests.add_line(heap, before + 1, line)?;
    }
    Ok(requests)
}
