// The questions that a finder asks. A host's meaning is a program that keeps the rules of the records; every
// question gets the record of that number, none past the last, the same each time.
ghost use Rattle.std.specs.Prelude.{◌≡◌, true, length};
ghost use Rattle.std.specs.Option.{option_map};
ghost use Rattle.host.specs.Lookups as at;
ghost use Rattle.host.specs.Program.{Program, told_package, told_module, told_symbol, told_decl};
ghost use Rattle.host.specs.Tests.{valid};

use crate::told::{
    Dependency, Export, ModuleInfo, PackageInfo, ReExportAll, SymbolDecl, SymbolInfo, SymbolNodeDep,
};
use ids::{ModuleId, PackageId, SymbolId};

// Numbers stand side by side in the questions, as the published source asks.
pub trait Host {
    // the analysed program that the host tells
    ghost program: { Self → Program };

    // How many names there are.
    fn names(&self) -> usize
        ensures { result ≡ (program self.now).names };

    // How many packages there are.
    fn packages(&self) -> usize
        ensures { result ≡ length (program self.now).packages };

    // How many modules there are.
    fn modules(&self) -> usize
        ensures { result ≡ length (program self.now).modules };

    fn package(&self, package: PackageId) -> Option<PackageInfo>
        ensures { result ≡ option_map told_package (at.package_at (program self.now) «package») };

    // The entry module at a place of a package.
    fn entry(&self, package: PackageId, place: usize) -> Option<ModuleId>
        ensures { result ≡ at.entry_at (program self.now) «package» place };

    fn module(&self, module: ModuleId) -> Option<ModuleInfo>
        ensures { result ≡ option_map told_module (at.module_at (program self.now) «module») };

    fn dependency(&self, module: ModuleId, place: usize) -> Option<Dependency>
        ensures { result ≡ at.dependency_at (program self.now) «module» place };

    fn re_export_all(&self, module: ModuleId, place: usize) -> Option<ReExportAll>
        ensures { result ≡ at.re_export_all_at (program self.now) «module» place };

    fn symbol(&self, module: ModuleId, symbol: SymbolId) -> Option<SymbolInfo>
        ensures { result ≡ option_map told_symbol (at.symbol_at (program self.now) «module» symbol) };

    fn export(&self, module: ModuleId, symbol: SymbolId, place: usize) -> Option<Export>
        ensures { result ≡ at.export_at (program self.now) «module» symbol place };

    fn member(&self, module: ModuleId, symbol: SymbolId, place: usize) -> Option<SymbolId>
        ensures { result ≡ at.member_at (program self.now) «module» symbol place };

    fn decl(&self, module: ModuleId, symbol: SymbolId, place: usize) -> Option<SymbolDecl>
        ensures { result ≡ option_map told_decl (at.decl_at (program self.now) «module» symbol place) };

    // A reference of the definition at a place.
    fn dep(
        &self,
        module: ModuleId,
        symbol: SymbolId,
        decl: usize,
        place: usize,
    ) -> Option<SymbolNodeDep>
        ensures { result ≡ at.dep_at (program self.now) «module» symbol decl place };

    // the program keeps the rules of the records
    ghost kept: { (h : Self) → valid (program h) ≡ true };
}
