// Lines become rows of words.
ghost use Rattle.script.specs.Rows.{Rowed};

use crate::faults::Problem;
use words::{content, first_word};

// The words of a line: none, or the two of a request. Where they are too few or too many, what is wrong, and the last
// word that was read.
pub(crate) fn row_of(line: &str) -> Result<Option<(&str, &str)>, (Problem, &str)>
    ensures { Rowed line.now result }
{
    let Some((module, after_module)) = first_word(content(line)) else {
        return Ok(None);
    };
    let Some((request, after_request)) = first_word(after_module) else {
        return Err((Problem::NoRequest, module));
    };
    match first_word(after_request) {
        None => Ok(Some((module, request))),
        Some((more, _)) => Err((Problem::TooManyWords, more)),
    }
}
