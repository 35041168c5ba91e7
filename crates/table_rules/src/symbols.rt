// The tests of a symbol.
ghost use Rattle.std.specs.Prelude.{◌≡◌, ◌&&◌, map};
ghost use Rattle.std.specs.List.{list_all};
ghost use Rattle.host.specs.Tests as tests;
ghost use Rattle.table_rules.specs.Meaning.{decl_of, symbol_of};

use crate::checks::{below, few};
use crate::decls::Inside;
use crate::program_table::{DeclTable, SymbolTable};
use host::{Export, distinct};
use ids::SymbolId;

impl Inside {
    fn export_known(&self, export: &Export) -> bool
        ensures { result ≡ tests.export_known self.now.names self.now.symbols export.now }
    {
        below(export.name.0, self.names) && below(export.symbol.0, self.symbols)
    }

    fn decls_kept(&self, decls: &[DeclTable]) -> bool
        ensures { result ≡ list_all (tests.decl_kept self.now.names self.now.symbols) (map decl_of decls.now) }
    {
        decls.iter().all(|decl| self.decl_kept(decl))
    }

    fn exports_known(&self, exports: &[Export]) -> bool
        ensures { result ≡ list_all (tests.export_known self.now.names self.now.symbols) exports.now }
    {
        exports.iter().all(|export| self.export_known(export))
    }

    // Each is known, and no two have the same name.
    fn exports_kept(&self, exports: &[Export]) -> bool
        ensures { result ≡ (list_all (tests.export_known self.now.names self.now.symbols) exports.now && tests.distinct (map (λ e. e.name.0) exports.now)) }
    {
        self.exports_known(exports) && distinct(exports, |export| export.name.0)
    }

    fn members_known(&self, members: &[SymbolId]) -> bool
        ensures { result ≡ list_all (tests.symbol_known self.now.symbols) members.now }
    {
        members.iter().all(|member| below(member.0, self.symbols))
    }

    // The rules of the symbol of that number.
    pub(crate) fn symbol_kept(&self, number: usize, symbol: &SymbolTable) -> bool
        ensures { result ≡ tests.symbol_kept self.now.names self.now.symbols number (symbol_of symbol.now) }
    {
        symbol.parent.is_none_or(|parent| below(parent.0, number))
            && !symbol.decls.is_empty()
            && few(&symbol.decls)
            && self.decls_kept(&symbol.decls)
            && few(&symbol.exports)
            && self.exports_kept(&symbol.exports)
            && few(&symbol.members)
            && self.members_known(&symbol.members)
    }
}
