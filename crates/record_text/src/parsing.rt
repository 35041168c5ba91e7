// The words of a line become an item: first by how many they are, then by the keyword. One match on the keyword and the
// words together was tried: the proof did not close for the lines of one keyword that have another count of words.
ghost use Rattle.std.specs.Prelude.{[], ◌∷◌, map};
ghost use Rattle.record_text.specs.Fields.{Refused};
ghost use Rattle.record_text.specs.Forms.{Formed};

use crate::faults::{Expected, Unread};
use crate::forms::{
    alias, definition, dependency, entry, export, export_all, file_ref, id, import_type, member,
    module_line, package_exports, package_line, qualified_alias, qualified_id, symbol_line,
};
use crate::items::Item;
use crate::texts::Texts;
use std::alloc::Global;

// What should stand on a line that has so many words after its keyword, which do not fit it.
fn expected(keyword: &str, found: usize) -> Expected {
    let wanted = match keyword {
        "package" => return Expected::PackageWords,
        "entry" | "symbol" | "member" => 1,
        "dependency" | "export" | "id" | "qualified-id" | "import-type" => 2,
        "export-all" => 3,
        "module" | "alias" => 4,
        "qualified-alias" | "file-ref" | "definition" => 5,
        _ => return Expected::Keyword,
    };
    Expected::Words { wanted, found }
}

fn misfit(keyword: &str, found: usize) -> Unread
    ensures { Refused (Unit {0}) 0 result }
{
    Unread::Of((expected(keyword, found), 0))
}

fn parse_one(texts: &mut Texts, keyword: &str, a: &str) -> Result<Item, Unread>
    ensures { Formed texts.old (keyword.now ∷ a.now ∷ []) texts.new result }
{
    match keyword {
        "package" => package_line(texts, a),
        "entry" => entry(texts, a),
        "symbol" => symbol_line(a),
        "member" => member(a),
        _ => Err(misfit(keyword, 1)),
    }
}

fn parse_two(
    heap: Global,
    texts: &mut Texts,
    keyword: &str,
    a: &str,
    b: &str,
) -> Result<Item, Unread>
    ensures { Formed texts.old (keyword.now ∷ a.now ∷ b.now ∷ []) texts.new result }
{
    match keyword {
        "package" => package_exports(texts, a, b),
        "dependency" => dependency(texts, a, b),
        "export" => export(texts, a, b),
        "id" => id(a, b),
        "qualified-id" => qualified_id(heap, texts, a, b),
        "import-type" => import_type(heap, texts, a, b),
        _ => Err(misfit(keyword, 2)),
    }
}

fn parse_three(texts: &mut Texts, keyword: &str, a: &str, b: &str, c: &str) -> Result<Item, Unread>
    ensures { Formed texts.old (keyword.now ∷ a.now ∷ b.now ∷ c.now ∷ []) texts.new result }
{
    match keyword {
        "export-all" => export_all(texts, a, b, c),
        _ => Err(misfit(keyword, 3)),
    }
}

fn parse_four(
    texts: &mut Texts,
    keyword: &str,
    a: &str,
    b: &str,
    c: &str,
    d: &str,
) -> Result<Item, Unread>
    ensures { Formed texts.old (keyword.now ∷ a.now ∷ b.now ∷ c.now ∷ d.now ∷ []) texts.new result }
{
    match keyword {
        "module" => module_line(texts, a, b, c, d),
        "alias" => alias(texts, a, b, c, d),
        _ => Err(misfit(keyword, 4)),
    }
}

fn parse_five(
    heap: Global,
    texts: &mut Texts,
    keyword: &str,
    a: &str,
    b: &str,
    c: &str,
    d: &str,
    e: &str,
) -> Result<Item, Unread>
    ensures { Formed texts.old (keyword.now ∷ a.now ∷ b.now ∷ c.now ∷ d.now ∷ e.now ∷ []) texts.new result }
{
    match keyword {
        "qualified-alias" => qualified_alias(heap, texts, a, b, c, d, e),
        "file-ref" => file_ref(texts, a, b, c, d, e),
        "definition" => definition(heap, texts, a, b, c, d, e),
        _ => Err(misfit(keyword, 5)),
    }
}

// The item that a keyword and the words after it say.
pub(crate) fn parse(
    heap: Global,
    texts: &mut Texts,
    keyword: &str,
    rest: &[&str],
) -> Result<Item, Unread>
    ensures { Formed texts.old (keyword.now ∷ map (λ x. x.now) rest.now) texts.new result }
{
    match rest {
        [a] => parse_one(texts, keyword, a),
        [a, b] => parse_two(heap, texts, keyword, a, b),
        [a, b, c] => parse_three(texts, keyword, a, b, c),
        [a, b, c, d] => parse_four(texts, keyword, a, b, c, d),
        [a, b, c, d, e] => parse_five(heap, texts, keyword, a, b, c, d, e),
        _ => Err(misfit(keyword, rest.len())),
    }
}
