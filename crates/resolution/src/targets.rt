// Where a specifier leads, and which module stands for another, by questions alone. Host and module stand side by side in
// free functions: a host is a trait of questions, and a struct around it would say no more.
ghost use Rattle.std.specs.Prelude.{◌≡◌, Decides, MatchOption};
ghost use Rattle.host.specs.Lookups.{within, module_at, symbol_at};
ghost use Rattle.resolution.specs.Laws as laws;
ghost use Rattle.resolution.specs.Targets as spec;

use host::{Host, ModuleKind};
use ids::{ModuleId, NameId, SymbolId};

// The most steps from a module to the one that has its types.
const TYPES_STEPS: usize = 8;

// The symbol of the module itself.
const MODULE_SYMBOL: SymbolId = SymbolId(0);

// The module that a specifier aims at. A `for`: as a chain of `map_while` and `find` it took half as long again.
fn aim<H: Host>(host: &H, module: ModuleId, specifier: NameId) -> Option<ModuleId>
    ensures { result ≡ spec.aim (within (λ x. x.dependencies) (module_at (H.program host.now) «module»)) specifier }
{
    let info = host.module(module)?;
    for place in 0..info.dependencies {
        let dependency = host.dependency(module, place)?;
        if dependency.specifier == specifier {
            return dependency.target;
        }
    }
    None
}

// What a module is; one past the last is missing.
fn kind<H: Host>(host: &H, module: ModuleId) -> ModuleKind
    ensures { result ≡ spec.kind_of (module_at (H.program host.now) «module») }
{
    host.module(module)
        .map_or(ModuleKind::Missing, |info| info.kind)
}

// The module that has the types of another.
fn types<H: Host>(host: &H, module: ModuleId) -> Option<ModuleId>
    ensures { result ≡ spec.types_of (module_at (H.program host.now) «module») }
{
    host.module(module)?.types
}

// The target of a specifier that a module uses: the module that it aims at, or the one that has its types. None where
// the module lacks the specifier, or it aims nowhere or at a missing module.
#[tactic(auto, using(crate::proofs::Lawful::target_lawful))]
pub fn target<H: Host>(host: &H, module: ModuleId, specifier: NameId) -> Option<ModuleId>
    ensures value { result ≡ spec.target (H.program host.now) «module» specifier }
    ensures law { laws.TargetOf (H.program host.now) «module» specifier result }
{
    led(host, aim(host, module, specifier))
}

// The target of the export-all at a place of a module. None where no export-all is there, or it leads nowhere. Who goes on
// asks for the module that stands for it: two steps, since the definitions of a walk speak of the target.
pub fn re_export_target<H: Host>(host: &H, module: ModuleId, place: usize) -> Option<ModuleId>
    ensures value { result ≡ spec.re_export_target (H.program host.now) «module» place }
    ensures law { MatchOption result ((y : ModuleId) → laws.Leads (H.program host.now) «module» place y → ⊥) (laws.Leads (H.program host.now) «module» place) }
{
    let all = host.re_export_all(module, place)?;
    target(host, module, all.specifier)
}

// Where an aim leads.
fn led<H: Host>(host: &H, aimed: Option<ModuleId>) -> Option<ModuleId>
    ensures { result ≡ spec.led (H.program host.now) aimed }
{
    let aimed = aimed.filter(|aimed| !is_missing(kind(host, *aimed)))?;
    let types = types(host, aimed).filter(|types| !is_missing(kind(host, *types)));
    Some(types.unwrap_or(aimed))
}

fn is_missing(kind: ModuleKind) -> bool
    ensures { result ≡ spec.is_missing kind }
{
    kind == ModuleKind::Missing
}

// Neither missing nor external.
fn is_inside(kind: ModuleKind) -> bool
    ensures { result ≡ spec.is_inside kind }
{
    !matches!(kind, ModuleKind::Missing | ModuleKind::External)
}

// The types module of a module, unless it is missing or external.
fn entered<H: Host>(host: &H, module: ModuleId) -> Option<ModuleId>
    ensures { result ≡ spec.entered (H.program host.now) (spec.types_of (module_at (H.program host.now) «module»)) }
{
    types(host, module).filter(|types| is_inside(kind(host, *types)))
}

// The module that stands for another: from types module to types module, eight times at the most, and never into a
// missing or external one.
#[tactic(auto, using(crate::proofs::Standing::standing_stays, crate::proofs::Standing::standing_goes, crate::proofs::Lawful::stands_lawful))]
pub fn standing_module<H: Host>(host: &H, module: ModuleId) -> ModuleId
    ensures value { result ≡ spec.stands (H.program host.now) «module» }
    ensures law { laws.StandsFor (H.program host.now) «module» result }
{
    let mut standing = module;
    for _ in 0..TYPES_STEPS {
        let Some(types) = entered(host, standing) else {
            return standing;
        };
        standing = types;
    }
    standing
}

// Whether a module itself exports a name.
#[tactic(auto, using(crate::proofs::Lawful::exports_lawful))]
pub fn exports<H: Host>(host: &H, module: ModuleId, name: NameId) -> bool
    ensures value { result ≡ spec.exports (H.program host.now) «module» name }
    ensures law { Decides result (laws.HasExport (H.program host.now) «module» name) }
{
    has_export(host, module, MODULE_SYMBOL, name)
}

// Whether a symbol exports a name.
fn has_export<H: Host>(host: &H, module: ModuleId, symbol: SymbolId, name: NameId) -> bool
    ensures { result ≡ spec.has_export (within (λ x. x.exports) (symbol_at (H.program host.now) «module» symbol)) name }
{
    // No `is_some_and` around the search: the proof closed at neither try, as it cannot cite a search inside a closure.
    let Some(info) = host.symbol(module, symbol) else {
        return false;
    };
    (0..info.exports).any(|place| {
        host.export(module, symbol, place)
            .is_some_and(|export| export.name == name)
    })
}
