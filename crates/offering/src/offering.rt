// Who offers a name.
ghost use Rattle.std.specs.Prelude.{◌≡◌, length, replicate};
ghost use Rattle.offering.specs.Offers as spec;
ghost use Rattle.resolution.specs.Targets.{stands};

use crate::marks::Marks;
use crate::refusals::Refusal;
use crate::walks::Walk;
use host::Host;
use ids::{ModuleId, NameId};
use resolution::{exports, re_export_target, standing_module};

// The place of the first export-all of a module that passes a name on. The sheet is blank again afterwards, found or not
// found.
fn search<H: Host>(host: &H, sheet: &mut [u8], module: ModuleId, name: NameId) -> Option<usize>
    requires { length sheet.old ≡ length (H.program host.now).modules }
    ensures first { spec.First (H.program host.now) name «module» result }
    ensures blank { sheet.new ≡ replicate (length sheet.old) 0 }
{
    let marks = Marks(sheet);
    if name == NameId::DEFAULT {
        return None;
    }
    let info = host.module(module)?;
    let mut found = None;
    // The loops are left by a label at the first offer. The loop over the export-alls is written out here, in walks.rt and in
    // routes: a closure that borrows and changes the walk tells a contract nothing of it.
    'places: for place in 0..info.re_export_alls {
        let Some(target) = re_export_target(host, module, place) else {
            continue;
        };
        let mut walk = Walk::begin(host, marks.0, standing_module(host, target));
        while let Some(next) = walk.waiting() {
            if exports(host, next, name) {
                found = Some(place);
                break 'places;
            }
            walk.visit(next);
        }
    }
    found
}

// The place of the first export-all of a module that passes a name on. The marks of the walk stand in the lent
// sheet, which has a byte for each module and is blank afterwards; a shorter one is refused and not touched. Host, sheet,
// module and name stand side by side here and in `offers`: public signatures stay.
pub fn first_offer<H: Host>(
    host: &H,
    sheet: &mut [u8],
    module: ModuleId,
    name: NameId,
) -> Result<Option<usize>, Refusal>
    ensures { spec.Searched (H.program host.now) (spec.First (H.program host.now) name «module») sheet.old sheet.new result }
{
    let modules = host.modules();
    if sheet.len() < modules {
        return Err(Refusal::ShortSheet);
    }
    Ok(search(host, &mut sheet[..modules], module, name))
}

// Whether a module offers a name: between the search and the public call, so that a planted bug there is refused in the
// code.
fn offered_by<H: Host>(
    host: &H,
    sheet: &mut [u8],
    module: ModuleId,
    name: NameId,
) -> Result<bool, Refusal>
    ensures { spec.Searched (H.program host.now) (spec.Offered (H.program host.now) name (stands (H.program host.now) «module»)) sheet.old sheet.new result }
{
    let standing = standing_module(host, module);
    let passed = first_offer(host, sheet, standing, name)?;
    Ok(passed.is_some() || exports(host, standing, name))
}

// Whether a module offers a name: the module that stands for it exports the name, or one of its export-alls passes the
// name on, as GetExportedNames of ECMA-262 has it. Marks and refusal are those of `first_offer`.
pub fn offers<H: Host>(
    host: &H,
    sheet: &mut [u8],
    module: ModuleId,
    name: NameId,
) -> Result<bool, Refusal>
    ensures { spec.Searched (H.program host.now) (spec.Offered (H.program host.now) name (stands (H.program host.now) «module»)) sheet.old sheet.new result }
{
    offered_by(host, sheet, module, name)
}
