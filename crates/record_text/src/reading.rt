// Texts become records.
ghost use Rattle.record_text.specs.Reading as spec;
ghost use Rattle.std.specs.Prelude.{map, length};

use crate::collecting::collect;
use crate::draft::Draft;
use crate::faults::{Fault, Unplaced, Unread};
use crate::listing::{Listing, Reader};
use crate::parsing::parse;
use crate::placing::place;
use std::alloc::Global;
use table_rules::ProgramTable;
use words::words;

// The fault of a line of these words.
fn fault(unread: Unread, heap: Global, number: usize, words: &[&str]) -> Fault
    requires { spec.Below (length words.now) unread }
    ensures { spec.UnreadAt unread number (map (λ x. x.now) words.now) result }
{
    match unread {
        Unread::Of((expected, place)) => Unplaced::Of(expected).at(heap, number, words[place]),
        Unread::NoMemory => Fault::NoMemory,
    }
}

impl Reader {
    // Nothing has been read but the names of modules and packages.
    fn begun(heap: Global, text: &str) -> Result<Reader, Fault>
        ensures { spec.Begun text.now result }
    {
        let texts = collect(heap, text)?;
        let table = ProgramTable {
            names: 0,
            packages: Vec::new(heap),
            modules: Vec::new(heap),
        };
        let draft = Draft { table, open: None };
        Ok(Reader { texts, draft })
    }

    // Adds what a line of these words says.
    fn add_words(&mut self, heap: Global, number: usize, words: &[&str]) -> Result<(), Fault>
        ensures { spec.WordsRead self.old number (map (λ x. x.now) words.now) self.new result }
    {
        let Some((keyword, rest)) = words.split_first() else {
            return Ok(());
        };
        let item = parse(heap, &mut self.texts, keyword, rest).map_err(|unread| fault(
            unread, heap, number, words,
        ))?;
        place(heap, &mut self.draft, item).map_err(|unplaced| unplaced.at(heap, number, keyword))
    }

    // Adds what a line says, if anything.
    fn add_line(&mut self, heap: Global, number: usize, line: &str) -> Result<(), Fault>
        ensures { spec.LineRead self.old number line.now self.new result }
    {
        let words = words(heap, line)?;
        self.add_words(heap, number, words.as_slice())
    }

    // What has been read, with the count of its names.
    fn listed(self) -> Listing
        ensures { spec.Listed self result }
    {
        let Reader { texts, draft } = self;
        let mut table = draft.table;
        table.names = texts.names.len();
        Listing {
            table,
            names: texts.names,
            modules: texts.modules,
            packages: texts.packages,
        }
    }
}

// Reads a whole text, or says what is wrong with the first line that cannot be read. The reader of requests has such a loop
// too: a closure that changes what has been read would tell a shared one nothing of it.
pub fn read(heap: Global, text: &str) -> Result<Listing, Fault>
    ensures { spec.Read text.now result }
{
    let mut reader = Reader::begun(heap, text)?;
    for (before, line) in text.lines().enumerate() {
        reader.add_line(heap, before + 1, line)?;
    }
    Ok(reader.listed())
}
