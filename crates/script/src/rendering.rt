// Requests become text again.
ghost use Rattle.std.specs.Prelude.{◌≡◌, IfOk, string_bytes};
ghost use Rattle.words.specs.Interned.{texts};
ghost use Rattle.words.specs.Spelled.{spelled};
ghost use Rattle.words.specs.Texts.{text_at};
ghost use Rattle.script.specs.Written.{written};

use ids::{NameId, Path};
use joining::Request;
use std::alloc::{AllocError, Global};
use words::Names;

// The text of a name, or nothing where the table lacks it.
fn name_text(names: &Names, name: NameId) -> &str
    ensures { result.now ≡ text_at (texts names.now) name.0 }
{
    names.text_or_empty(name.0)
}

// The names of a path, with a dot between two. A name that the table lacks is left empty. A `for` puts a dot before each
// further name: std has no `join` of texts that are made one by one.
pub fn path_text(heap: Global, names: &Names, path: &Path) -> Result<String, AllocError>
    ensures { IfOk result (λ s. string_bytes s ≡ spelled (texts names.now) path.now) }
{
    let mut text = String::new(heap);
    let [first, rest @ ..] = path.names() else {
        return Ok(text);
    };
    text.push_str(name_text(names, *first))?;
    for name in rest {
        text.push('.')?;
        text.push_str(name_text(names, *name))?;
    }
    Ok(text)
}

// A request as a word that asks for it. A path that would read as `star` or `full` has a dot in front.
pub fn request_text(heap: Global, names: &Names, request: &Request) -> Result<String, AllocError>
    ensures { IfOk result (λ s. string_bytes s ≡ written (texts names.now) request.now) }
{
    match request {
        Request::Star => String::from_str(heap, "star"),
        Request::Full => String::from_str(heap, "full"),
        Request::Path(path) => {
            let text = path_text(heap, names, path)?;
            match text.as_str() {
                "star" | "full" => format!(in heap; ".{text}"),
                _ => Ok(text),
            }
        }
    }
}
