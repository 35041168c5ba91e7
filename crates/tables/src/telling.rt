// Loaded tables as a host: each question is a look at a place. No call asks for memory.
ghost use Rattle.std.specs.Prelude.{◌≡◌};
ghost use Rattle.std.specs.Option.{option_map};
ghost use Rattle.host.specs.Lookups as at;
ghost use Rattle.tables.specs.Loading as spec;
ghost use Rattle.table_rules.specs.Meaning.{package_of, module_of, symbol_of, decl_of};

use crate::infos::{decl_info, module_info, package_info, symbol_info};
use crate::tables_struct::Tables;
use host::{
    Dependency, Export, Host, ModuleInfo, PackageInfo, ReExportAll, SymbolDecl, SymbolInfo,
    SymbolNodeDep,
};
use ids::{ModuleId, PackageId, SymbolId};
use table_rules::{DeclKindTable, DeclTable, ModuleTable, PackageTable, SymbolTable};

impl Tables {
    fn package_table(&self, package: PackageId) -> Option<&PackageTable>
        ensures { option_map (λ x. package_of x.now) result ≡ at.package_at (spec.program self.now) «package» }
    {
        self.table.packages.get(package.0 as usize)
    }

    fn module_table(&self, module: ModuleId) -> Option<&ModuleTable>
        ensures { option_map (λ x. module_of x.now) result ≡ at.module_at (spec.program self.now) «module» }
    {
        self.table.modules.get(module.0 as usize)
    }

    fn symbol_table(&self, module: ModuleId, symbol: SymbolId) -> Option<&SymbolTable>
        ensures { option_map (λ x. symbol_of x.now) result ≡ at.symbol_at (spec.program self.now) «module» symbol }
    {
        self.module_table(module)?.symbols.get(symbol.0 as usize)
    }

    fn decl_table(&self, module: ModuleId, symbol: SymbolId, place: usize) -> Option<&DeclTable>
        ensures { option_map (λ x. decl_of x.now) result ≡ at.decl_at (spec.program self.now) «module» symbol place }
    {
        self.symbol_table(module, symbol)?.decls.get(place)
    }
}

impl Host for Tables {
    ghost program = { spec.program };

    ghost kept = { λ h. h.kept };

    fn names(&self) -> usize {
        self.table.names as usize
    }

    fn packages(&self) -> usize {
        self.table.packages.len()
    }

    fn modules(&self) -> usize {
        self.table.modules.len()
    }

    fn package(&self, package: PackageId) -> Option<PackageInfo> {
        Some(package_info(self.package_table(package)?))
    }

    fn entry(&self, package: PackageId, place: usize) -> Option<ModuleId> {
        let entries = self.package_table(package)?.entries.as_ref()?;
        entries.get(place).copied()
    }

    fn module(&self, module: ModuleId) -> Option<ModuleInfo> {
        Some(module_info(self.module_table(module)?))
    }

    fn dependency(&self, module: ModuleId, place: usize) -> Option<Dependency> {
        let module = self.module_table(module)?;
        module.dependencies.get(place).copied()
    }

    fn re_export_all(&self, module: ModuleId, place: usize) -> Option<ReExportAll> {
        let module = self.module_table(module)?;
        module.re_export_alls.get(place).copied()
    }

    fn symbol(&self, module: ModuleId, symbol: SymbolId) -> Option<SymbolInfo> {
        Some(symbol_info(self.symbol_table(module, symbol)?))
    }

    fn export(&self, module: ModuleId, symbol: SymbolId, place: usize) -> Option<Export> {
        let symbol = self.symbol_table(module, symbol)?;
        symbol.exports.get(place).copied()
    }

    fn member(&self, module: ModuleId, symbol: SymbolId, place: usize) -> Option<SymbolId> {
        let symbol = self.symbol_table(module, symbol)?;
        symbol.members.get(place).copied()
    }

    fn decl(&self, module: ModuleId, symbol: SymbolId, place: usize) -> Option<SymbolDecl> {
        Some(decl_info(self.decl_table(module, symbol, place)?))
    }

    fn dep(
        &self,
        module: ModuleId,
        symbol: SymbolId,
        decl: usize,
        place: usize,
    ) -> Option<SymbolNodeDep> {
        let DeclKindTable::Definition(_, deps) = &self.decl_table(module, symbol, decl)?.kind else {
            return None;
        };
        deps.get(place).copied()
    }
}
