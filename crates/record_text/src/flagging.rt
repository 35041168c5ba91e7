// Words become the flags of a definition.
ghost use Rattle.std.specs.Prelude.{◌≡◌, map, MatchOption};
ghost use Rattle.record_text.specs.Flags as spec;

use crate::faults::{Expected, Unread};
use host::SymbolDeclFlags;
use std::alloc::Global;
use words::comma_pieces;

// One flag. The definitions say a set of flags as a list of these.
#[derive(Clone, Copy)]
pub(crate) enum Flag {
    Overloads,
    Body,
    Export,
    Private,
    Member,
    Function,
    Class,
    Scope,
}

// The flag that a word names. No `FromStr` in `host`: the words are those of this text form, which `host` knows nothing of.
fn flag_of(word: &str) -> Option<Flag>
    ensures { MatchOption result (spec.Flagless word.now) (λ f. word.now ≡ spec.flag_word f) }
{
    match word {
        "overloads" => Some(Flag::Overloads),
        "body" => Some(Flag::Body),
        "export" => Some(Flag::Export),
        "private" => Some(Flag::Private),
        "member" => Some(Flag::Member),
        "function" => Some(Flag::Function),
        "class" => Some(Flag::Class),
        "scope" => Some(Flag::Scope),
        _ => None,
    }
}

fn raise(flags: &mut SymbolDeclFlags, flag: Flag)
    ensures { flags.new ≡ spec.raised flag flags.old }
{
    match flag {
        Flag::Overloads => flags.overloads = true,
        Flag::Body => flags.body = true,
        Flag::Export => flags.export = true,
        Flag::Private => flags.private = true,
        Flag::Member => flags.member = true,
        Flag::Function => flags.function = true,
        Flag::Class => flags.class = true,
        Flag::Scope => flags.scope = true,
    }
}

// The flags that these words name.
fn all_raised(words: &[&str], place: usize) -> Result<SymbolDeclFlags, Unread>
    ensures { spec.RaisedRead (map (λ x. x.now) words.now) place result }
{
    let mut flags = SymbolDeclFlags::default();
    for word in words {
        // `ok_or(..)?` was tried: the proof of the refusal, which `?` converts there, did not close.
        let Some(flag) = flag_of(word) else {
            return Err(Unread::Of((Expected::Flags, place)));
        };
        raise(&mut flags, flag);
    }
    Ok(flags)
}

pub(crate) fn flags(heap: Global, word: &str, place: usize) -> Result<SymbolDeclFlags, Unread>
    ensures { spec.FlagsRead word.now place result }
{
    match word {
        "-" => Ok(SymbolDeclFlags::default()),
        _ => {
            let pieces = comma_pieces(heap, word)?;
            all_raised(pieces.as_slice(), place)
        }
    }
}
