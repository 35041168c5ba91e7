// What is read of a text.
use ids::ModuleId;
use joining::Request;
use words::Names;

// A request, with the number of its line: the first line is line 1.
#[derive(Clone, Copy)]
pub struct Line {
    pub number: usize,
    pub module: ModuleId,
    pub request: Request,
}

// The requests of a text, line by line, and what their numbers stand for.
#[derive(Drop)]
pub struct Requests {
    pub modules: Names,
    pub names: Names,
    pub lines: Vec<Line>,
}
