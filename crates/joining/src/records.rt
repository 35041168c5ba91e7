// The calls on a table of records. Only its making asks for memory.
ghost use Rattle.std.specs.Prelude.{◌≡◌, ◌+◌, ◌-◌, ◌<◌, ◌≤◌, false, [], length, filter, IfOk, if◌then◌else◌, Some, None, MatchResult, nat_lt, vec_capacity};
ghost use Rattle.std.specs.List.{slice_get};
ghost use Rattle.ids.specs.Paths.{names_of};
ghost use Rattle.joining.specs.Examples.{Examples};
ghost use Rattle.joining.specs.Joining.{some_covers, some_of_default, handed, joined, joined_paths};
ghost use Rattle.joining.specs.Refusals as refusals;
ghost use Rattle.joining.specs.Rows.{shaped, paths_of, stays};
ghost use Rattle.joining.specs.Tables as spec;
ghost use Rattle.joining.specs.Wanted.{rows_wanted};

use crate::covering::{covers, of_default};
use crate::records_struct::Records;
use crate::refusals::Refusal;
use crate::requests::Request;
use crate::rows::{Extent, Row};
use ids::{ModuleId, NameId, Path};
use std::alloc::{AllocError, Global};

impl Records {
    // A table for `modules` modules, of which nothing has been asked, with `limit` rows.
    pub fn new(heap: Global, modules: usize, limit: usize) -> Result<Records, AllocError>
        ensures made { IfOk result (λ t. spec.Fresh modules limit t) }
        ensures examples { Examples }
    {
        let rows = Vec::with_capacity(heap, limit)?;
        let extents = vec![in heap; Extent::Paths; modules]?;
        Ok(Records {
            extents,
            rows,
            limit,
        })
    }

    // How many modules the table has records for.
    pub fn modules(&self) -> usize
        ensures { result ≡ spec.modules self.now }
    {
        self.extents.len()
    }

    // How many rows are not used.
    pub fn free(&self) -> usize
        ensures { result ≡ self.now.limit - spec.used self.now }
    {
        self.limit - self.rows.len()
    }

    // How far the record of a module goes; none past the last module.
    pub fn extent(&self, module: ModuleId) -> Option<Extent>
        ensures { result ≡ (if nat_lt «module».0 (spec.modules self.now) then Some (spec.extent_of self.now «module») else None) }
    {
        ((module.0 as usize) < self.modules()).then(|| self.shape(module))
    }

    // The rows of all modules.
    pub fn rows(&self) -> &[Row]
        ensures { result.now ≡ self.now.rows.items }
    {
        self.rows.as_slice()
    }

    // How many rows the record of a module takes.
    pub fn kept(&self, module: ModuleId) -> usize
        ensures { result ≡ spec.kept_rows self.now «module» }
    {
        self.rows_of(module)
    }

    // Joins a request to the record of a module, and hands out what of it is new.
    #[tactic(auto, using(crate::proofs::TableFacts::joins))]
    pub fn join(&mut self, module: ModuleId, request: Request) -> Result<Option<Request>, Refusal>
        ensures { spec.Joins self.old self.new «module» request result }
    {
        self.admits(module, request.rows_wanted())?;
        Ok(self.join_admitted(module, request))
    }

    // Joins the record that `from` has of a module to the one that this table has of it: its requests
    // one after another, kept paths in their order.
    #[tactic(auto, using(crate::proofs::TableFacts::joins_record))]
    pub fn join_record(&mut self, module: ModuleId, from: &Records) -> Result<(), Refusal>
        ensures { spec.JoinsRecord self.old self.new «module» from.now result }
    {
        self.admits(module, from.kept(module))?;
        match from.shape(module) {
            Extent::Full => {
                let _ = self.join_admitted(module, Request::Full);
            }
            Extent::Star => {
                let _ = self.join_admitted(module, Request::Star);
            }
            Extent::Paths => self.join_rows(module, from.rows()),
        }
        Ok(())
    }

    // Forgets what was asked of a module.
    pub fn clear(&mut self, module: ModuleId) -> Result<(), Refusal>
        ensures { spec.Clears self.old self.new «module» result }
    {
        self.admits(module, 0)?;
        self.reset(module, Extent::Paths);
        Ok(())
    }

    // How far the record of a module goes. Past the last module no path is kept.
    fn shape(&self, module: ModuleId) -> Extent
        ensures { result ≡ spec.extent_of self.now «module» }
    {
        self.extents
            .get(module.0 as usize)
            .copied()
            .unwrap_or(Extent::Paths)
    }

    // How many rows are of a module: below the public call, so that a planted bug there is refused in the code.
    fn rows_of(&self, module: ModuleId) -> usize
        ensures { result ≡ spec.kept_rows self.now «module» }
    {
        self.rows.iter().filter(|row| row.module == module).count()
    }

    // Whether there is such a module, and so many rows are free.
    fn admits(&self, module: ModuleId, rows: usize) -> Result<(), Refusal>
        ensures { MatchResult result (λ _. spec.refusal self.now «module» rows ≡ None) (λ e. spec.refusal self.now «module» rows ≡ Some (refusals.number e)) }
    {
        if module.0 as usize >= self.modules() {
            return Err(Refusal::NoSuchModule);
        }
        if rows > self.free() {
            return Err(Refusal::NoFreeRow);
        }
        Ok(())
    }

    // Joins a request that is admitted. The record is full where star meets something of `default`:
    // the one is in the record, and the other is asked.
    fn join_admitted(&mut self, module: ModuleId, request: Request) -> Option<Request>
        requires { spec.refusal self.old «module» (rows_wanted request) ≡ None }
        ensures out { result ≡ handed (spec.record_of self.old «module») request }
        ensures changes { spec.Changes self.old self.new «module» (joined (spec.record_of self.old «module») request) }
    {
        match self.shape(module) {
            Extent::Full => None,
            Extent::Star => {
                if !request.asks_default() {
                    return None;
                }
                self.reset(module, Extent::Full);
                Some(Request::Path(Path::single(NameId::DEFAULT)))
            }
            Extent::Paths => match request {
                Request::Path(path) => {
                    if self.some_covers(module, path.names()) {
                        return None;
                    }
                    self.keep(module, path);
                    Some(request)
                }
                Request::Star => {
                    // where a part of `default` is kept, and not all of it, the rest is new
                    let part = self.some_of_default(module);
                    let rest = part && !self.some_covers(module, &[NameId::DEFAULT]);
                    self.reset(module, if part { Extent::Full } else { Extent::Star });
                    Some(if rest { Request::Full } else { Request::Star })
                }
                Request::Full => {
                    self.reset(module, Extent::Full);
                    Some(Request::Full)
                }
            },
        }
    }

    // Joins the paths of a module's rows, one after another: a loop, as each changes the table.
    fn join_rows(&mut self, module: ModuleId, rows: &[Row])
        requires { spec.refusal self.old «module» (length (paths_of «module» rows.now)) ≡ None }
        ensures { spec.Changes self.old self.new «module» (joined_paths (spec.record_of self.old «module») (paths_of «module» rows.now)) }
    {
        for row in rows {
            if row.module == module {
                let _ = self.join_admitted(module, Request::Path(row.path));
            }
        }
    }

    // Gives a module the record of this extent with no path kept.
    fn reset(&mut self, module: ModuleId, extent: Extent)
        requires { «module».0 < spec.modules self.old }
        ensures { spec.Changes self.old self.new «module» (shaped extent []) }
    {
        self.remove_covered(module, &[]);
        self.extents[module.0 as usize] = extent;
    }

    // Keeps a path that no kept one covers, in the place of those that it covers.
    fn keep(&mut self, module: ModuleId, path: Path)
        requires paths { slice_get self.old.extents.items «module».0 ≡ Some Extent.Paths }
        requires room { spec.used self.old < self.old.limit }
        requires uncovered { some_covers (paths_of «module» self.old.rows.items) (names_of path) ≡ false }
        ensures { spec.Changes self.old self.new «module» (joined (spec.record_of self.old «module») (Request.Path path)) }
    {
        self.remove_covered(module, path.names());
        self.rows.push_reserved(Row { module, path });
    }

    // Removes the rows of a module whose paths `front` covers; without a name, all of its rows.
    fn remove_covered(&mut self, module: ModuleId, front: &[NameId])
        ensures rows { self.new.rows.items ≡ filter (stays «module» front.now) self.old.rows.items }
        ensures fewer { spec.used self.new ≤ spec.used self.old }
        ensures extents { self.new.extents ≡ self.old.extents }
        ensures limit { self.new.limit ≡ self.old.limit }
        ensures capacity { vec_capacity self.new.rows ≡ vec_capacity self.old.rows }
    {
        self.rows.retain(|row| !(row.module == module && covers(front, row.path.names())));
    }

    // Whether a kept path of a module covers `path`. A function of its own, as the next one: to say what a closure computes
    // would take more than the chain.
    fn some_covers(&self, module: ModuleId, path: &[NameId]) -> bool
        ensures { result ≡ some_covers (paths_of «module» self.now.rows.items) path.now }
    {
        self.rows
            .iter()
            .filter(|row| row.module == module)
            .any(|row| covers(row.path.names(), path))
    }

    // Whether a kept path of a module begins with `default`.
    fn some_of_default(&self, module: ModuleId) -> bool
        ensures { result ≡ some_of_default (paths_of «module» self.now.rows.items) }
    {
        self.rows
            .iter()
            .filter(|row| row.module == module)
            .any(|row| of_default(row.path.names()))
    }
}
