// The kinds of syntax that declare something, and which of them are values, types or both.
ghost use Rattle.std.specs.Prelude.{◌≡◌};
ghost use Rattle.host.specs.Namespaces as spec;

// In this order they are numbered from 0.
#[derive(Clone, Copy, PartialEq, Eq, Debug)]
pub enum NodeKind {
    Module,
    ExportDefaultExpr,
    ClassDecl,
    FnDecl,
    TsEnum,
    TsInterface,
    TsNamespace,
    TsTypeAlias,
    Var,
    UsingVar,
    AutoAccessor,
    ClassMethod,
    ClassProp,
    ClassParamProp,
    Constructor,
    ExpandoProperty,
    TsIndexSignature,
    TsCallSignatureDecl,
    TsConstructSignatureDecl,
    TsPropertySignature,
    TsGetterSignature,
    TsSetterSignature,
    TsMethodSignature,
    // behind `export`
    ExportClass,
    ExportFn,
    ExportVar,
    ExportTsEnum,
    ExportTsInterface,
    ExportTsModule,
    ExportTsTypeAlias,
    // behind `export default`
    DefaultFn,
    DefaultTsInterface,
    DefaultClass,
}

// In a pair: whether something is a value, and whether it is a type.
pub(crate) const VALUE: (bool, bool) = (true, false);

pub(crate) const TYPE: (bool, bool) = (false, true);

pub(crate) const BOTH: (bool, bool) = (true, true);

// Whether a node of each kind is a value, and whether it is a type.
// The pairs and the table are those of the published source and of docs/HOSTS.md.
const NAMESPACES: [(bool, bool); 33] = [
    BOTH, VALUE, BOTH, VALUE, BOTH, TYPE, BOTH, TYPE, VALUE, VALUE, BOTH, BOTH, BOTH, BOTH, BOTH,
    VALUE, BOTH, BOTH, BOTH, BOTH, BOTH, BOTH, BOTH, BOTH, VALUE, VALUE, BOTH, TYPE, BOTH, TYPE,
    VALUE, TYPE, BOTH,
];

impl NodeKind {
    // The number of the kind, from 0 to 32.
    pub fn number(self) -> u8
        ensures { result ≡ spec.number self }
    {
        self as u8
    }

    // Whether a node of this kind is a value, and whether it is a type.
    pub fn namespaces(self) -> (bool, bool)
        ensures { result ≡ spec.namespaces (spec.number self) }
    {
        NAMESPACES[self as usize]
    }
}
