// Words become kinds of syntax.
ghost use Rattle.record_text.specs.Nodes as spec;

use crate::faults::{Expected, Unread};
use host::NodeKind;

// A kind of syntax is written by its name in `NodeKind`. No `FromStr` in `host`: that the names are the words is a rule of
// this text form, which `host` knows nothing of.
pub(crate) fn node_kind(word: &str, place: usize) -> Result<NodeKind, Unread>
    ensures { spec.NodeKindRead word.now place result }
{
    match word {
        "Module" => Ok(NodeKind::Module),
        "ExportDefaultExpr" => Ok(NodeKind::ExportDefaultExpr),
        "ClassDecl" => Ok(NodeKind::ClassDecl),
        "FnDecl" => Ok(NodeKind::FnDecl),
        "TsEnum" => Ok(NodeKind::TsEnum),
        "TsInterface" => Ok(NodeKind::TsInterface),
        "TsNamespace" => Ok(NodeKind::TsNamespace),
        "TsTypeAlias" => Ok(NodeKind::TsTypeAlias),
        "Var" => Ok(NodeKind::Var),
        "UsingVar" => Ok(NodeKind::UsingVar),
        "AutoAccessor" => Ok(NodeKind::AutoAccessor),
        "ClassMethod" => Ok(NodeKind::ClassMethod),
        "ClassProp" => Ok(NodeKind::ClassProp),
        "ClassParamProp" => Ok(NodeKind::ClassParamProp),
        "Constructor" => Ok(NodeKind::Constructor),
        "ExpandoProperty" => Ok(NodeKind::ExpandoProperty),
        "TsIndexSignature" => Ok(NodeKind::TsIndexSignature),
        "TsCallSignatureDecl" => Ok(NodeKind::TsCallSignatureDecl),
        "TsConstructSignatureDecl" => Ok(NodeKind::TsConstructSignatureDecl),
        "TsPropertySignature" => Ok(NodeKind::TsPropertySignature),
        "TsGetterSignature" => Ok(NodeKind::TsGetterSignature),
        "TsSetterSignature" => Ok(NodeKind::TsSetterSignature),
        "TsMethodSignature" => Ok(NodeKind::TsMethodSignature),
        "ExportClass" => Ok(NodeKind::ExportClass),
        "ExportFn" => Ok(NodeKind::ExportFn),
        "ExportVar" => Ok(NodeKind::ExportVar),
        "ExportTsEnum" => Ok(NodeKind::ExportTsEnum),
        "ExportTsInterface" => Ok(NodeKind::ExportTsInterface),
        "ExportTsModule" => Ok(NodeKind::ExportTsModule),
        "ExportTsTypeAlias" => Ok(NodeKind::ExportTsTypeAlias),
        "DefaultFn" => Ok(NodeKind::DefaultFn),
        "DefaultTsInterface" => Ok(NodeKind::DefaultTsInterface),
        "DefaultClass" => Ok(NodeKind::DefaultClass),
        _ => Err(Unread::Of((Expected::NodeKind, place))),
    }
}
